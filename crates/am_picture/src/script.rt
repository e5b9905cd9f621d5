//! The script of a page: it filters the rows, says what a mark is of, and shows times in the reader's zone.
//!
//! Without it a page has all texts: a row opens, the overview and the bands too.

/// The sum of the script by which a browser knows it: SHA-256 in base64.
pub(crate) const SCRIPT_SUM: &str = "Iv2QS4Q9LqKQA3LhHXJ/cy/JlPArbdcR86oeRn8J1C4=";

/// The script. It has no `<` and no `&`, so a page is XML too.
pub(crate) const SCRIPT: &str = "
(function () {
  var page = document, root = page.documentElement, detail = page.getElementById('detail');
  var groups = [].slice.call(page.querySelectorAll('.g')), texts = new Map();
  function field(name) { return page.getElementById(name); }
  function lead(item) { return item.firstChild ? item.firstChild.textContent : ''; }
  root.className = 'js';

  // Mutes that several alerts have are on the page once. A row that is pointed at or opens gets its own.
  function links(group) { return Array.from(group.querySelectorAll('li > a')); }
  function list(link) { return field(link.hash.slice(1)); }
  function copy(node) {
    var made = node.cloneNode(true), from = page.createTreeWalker(node, 4), to = page.createTreeWalker(made, 4);
    while (from.nextNode()) {
      to.nextNode();
      if (old.has(from.currentNode)) { old.set(to.currentNode, old.get(from.currentNode)); }
    }
    return made;
  }
  function expand(group) {
    links(group).forEach(function (link) {
      var own = page.createDocumentFragment();
      list(link).childNodes.forEach(function (mute) { own.appendChild(copy(mute)); });
      link.replaceWith(own);
    });
  }
  page.addEventListener('toggle', function (event) { if (event.target.matches('.g')) { expand(event.target); } }, true);

  // A line about what is pointed at or tapped.
  function line(event) {
    var row = event.target.closest ? event.target.closest('.g') : null;
    if (row) { expand(row); }
    var item = event.target.closest ? event.target.closest('.g li, .g li b, .g li u, .g:not([open]) summary, .o li, .bands b') : null;
    if (!item) { if (event.type === 'click') { detail.hidden = true; } return; }
    var group = item.closest('.g'), parts = [];
    if (group) { if (item.localName !== 'summary') { parts.push(group.querySelector('summary').textContent); } }
    if (item.closest('.bands')) { parts.push(lead(item.closest('p'))); }
    var list = item.closest('ul');
    if (list) { parts.push(list.previousElementSibling.textContent); }
    if (item.parentNode.closest('li')) { parts.push(lead(item.parentNode)); }
    parts.push(item.textContent);
    detail.textContent = parts.join('\\n');
    detail.hidden = false;
  }
  page.addEventListener('pointerover', line);
  page.addEventListener('click', line);

  // The choices of receivers and routes.
  function target(head) {
    var words = head.firstChild.data.split(' \\u2192 ');
    return [words[0], words.slice(1).join(' \\u2192 ').trim()];
  }
  function choose(select, names) {
    Array.from(names).sort().forEach(function (name) {
      var option = page.createElement('option');
      option.value = option.textContent = name;
      select.appendChild(option);
    });
  }
  var receivers = new Set(), routes = new Set();
  groups.forEach(function (group) {
    var found = { receivers: new Set(), routes: new Set(), text: null };
    group.querySelectorAll('h4').forEach(function (head) {
      var it = target(head);
      found.routes.add(it[0]); routes.add(it[0]);
      found.receivers.add(it[1]); receivers.add(it[1]);
    });
    texts.set(group, found);
  });
  choose(field('receiver'), receivers);
  choose(field('route'), routes);

  function fits(group, words, receiver, route, state) {
    var found = texts.get(group);
    if (receiver) { if (!found.receivers.has(receiver)) { return false; } }
    if (route) { if (!found.routes.has(route)) { return false; } }
    if (state) { if (!group.querySelector(state)) { return false; } }
    if (words.length === 0) { return true; }
    if (found.text === null) {
      found.text = [group].concat(links(group).map(list)).map(function (it) { return it.textContent; }).join(' ').toLowerCase();
      found.text = found.text.replace(/\"/g, '');
    }
    return words.every(function (word) { return found.text.includes(word); });
  }
  function filter() {
    var words = field('search').value.toLowerCase().replace(/\"/g, '').split(/[\\s,]+/).filter(Boolean), shown = 0;
    var receiver = field('receiver').value, route = field('route').value, state = field('state').value;
    var all = !(words.length || receiver || route || state);
    groups.forEach(function (group) {
      var fit = all || fits(group, words, receiver, route, state);
      group.hidden = !fit;
      if (fit) { shown += 1; }
    });
    page.querySelectorAll('details.s').forEach(function (section) {
      var count = section.querySelectorAll('.g:not([hidden])').length;
      section.hidden = count === 0;
      section.querySelector('summary span').textContent = count;
      if (!all) { section.open = 400 > count; }
    });
    field('found').textContent = all ? '' : shown + ' of ' + groups.length + ' rows';
  }
  field('filters').addEventListener('input', filter);
  field('filters').addEventListener('submit', function (event) { event.preventDefault(); });

  // Times in the zone of who reads. Names and labels stay as they are.
  var start = new Date(page.body.dataset.start), old = new Map();
  var whole = /\\b(?:(\\d{4}-\\d\\d-\\d\\d)T|(?:(\\d\\d)-(\\d\\d) )?)(\\d\\d):(\\d\\d)(?::(\\d\\d)(\\.\\d+)?)?Z/g;
  var names = 'script, h1, small, summary, h4, h4 i, .g ol li, a, .bands span';
  function two(number) { return (10 > number ? '0' : '') + number; }
  function day(at) { return at.getFullYear() + '-' + two(at.getMonth() + 1) + '-' + two(at.getDate()); }
  function local(text, date, month, dayOfMonth, hours, minutes, seconds, rest) {
    var at = new Date(start);
    if (date) { at = new Date(date + 'T' + hours + ':' + minutes + 'Z'); } else {
      if (month) { at.setUTCMonth(month - 1, dayOfMonth); }
      if (start - at > 8e9) { at.setUTCFullYear(at.getUTCFullYear() + 1); }
      at.setUTCHours(hours, minutes);
    }
    var shown = two(at.getHours()) + ':' + two(at.getMinutes()) + (seconds ? ':' + seconds + (rest || '') : '');
    if (date) { return day(at) + ' ' + shown; }
    return (month ? day(at).slice(5) + ' ' : '') + shown;
  }
  function change(node, text) {
    if (text !== node.data) { old.set(node, node.data); node.data = text; }
  }
  function zone() {
    if (!field('local').checked) { old.forEach(function (text, node) { node.data = text; }); old.clear(); return; }
    page.querySelectorAll('.axis b').forEach(function (date) {
      change(date.firstChild, day(new Date(date.textContent + 'T' + date.previousSibling.data.trim())));
    });
    var walker = page.createTreeWalker(page.body, 4), node;
    while ((node = walker.nextNode())) {
      if (!node.parentNode.matches(names)) { change(node, node.data.replace(whole, local)); }
    }
  }
  if (isNaN(start)) { field('zone').hidden = true; } else { field('local').addEventListener('change', zone); }
})();
";
