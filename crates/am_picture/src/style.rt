//! The style of a page, for a light and a dark background, and for a narrow window.

/// The style sheet. It has no `<` and no `&`.
pub(crate) const STYLE: &str = "
:root{color-scheme:light dark;--ground:#fff;--text:#1f2328;--dim:#656d76;--line:#e3e6ea;--fires:#f3b8b1;
--first:#b3190f;--new:#c25700;--resolved:#1a7f37;--repeat:#57606a;--failed:#000;--band:#8250df;--change:#0969da;--l:34%;--r:14px}
@media (prefers-color-scheme:dark){:root{--ground:#14171b;--text:#e3e7ec;--dim:#98a1ab;--line:#2b3138;--fires:#7a342e;
--first:#ff6b5e;--new:#ffa24a;--resolved:#4ac26b;--repeat:#b1bac4;--failed:#fff;--band:#b083f0;--change:#58a6ff}}
*,::before,::after{box-sizing:border-box}
body{margin:12px 16px 60px;background:var(--ground);color:var(--text);font:13px/1.45 system-ui,-apple-system,'Segoe UI',sans-serif}
h1{font-size:19px;margin:0 0 2px;overflow-wrap:anywhere}
small{font-size:13px;font-weight:400;color:var(--dim)}
h2{font-size:15px;margin:20px 0 4px}
h4,p{margin:0}
.sum{margin-bottom:6px}
summary{cursor:pointer}
em{font-style:normal;color:var(--band)}
em.x{color:var(--first);font-weight:600}
summary i{font-style:normal;color:var(--dim)}
a{color:var(--change)}
pre{font:12px/1.5 ui-monospace,Menlo,Consolas,'DejaVu Sans Mono',monospace;white-space:pre-wrap;overflow-wrap:anywhere;margin:0}
.e pre{max-height:30vh;overflow:auto}
.k{margin:0;padding:0;list-style:none;max-height:60vh;overflow:auto;\
font:12px/1.5 ui-monospace,Menlo,Consolas,'DejaVu Sans Mono',monospace}
.k li{padding:2px 0 2px 8px;border-left:3px solid var(--line);margin-bottom:6px}
.k li:target{border-color:var(--change)}
.k u{display:block;text-decoration:none}
form{display:none}
.js form{display:flex;flex-wrap:wrap;gap:6px;align-items:center;margin:8px 0}
input,select{font:inherit;color:inherit;background:var(--ground);border:1px solid var(--dim);border-radius:4px;padding:3px 6px;\
max-width:100%}
#search{flex:1 1 180px}
.legend span{display:inline-block;position:relative;margin-right:12px;padding-left:16px;white-space:nowrap}
.legend :is(b,u){position:absolute;left:0;top:5px;width:12px;height:9px;background:var(--fires)}
.plot{position:relative;margin-top:8px;font:12px/1.45 ui-monospace,Menlo,Consolas,'DejaVu Sans Mono',monospace}
.grid{position:absolute;inset:0;z-index:-1;pointer-events:none}
.grid i{position:absolute;top:0;bottom:0;left:calc(var(--l) + (100% - var(--l) - var(--r))*var(--x)/1000);\
border-left:1px solid var(--line)}
.grid .c{border-left:2px solid var(--change);opacity:.6}
.axis{position:sticky;top:0;height:30px;background:var(--ground);border-bottom:1px solid var(--line);z-index:3;font-size:11px;\
color:var(--dim);overflow:hidden}
.axis span{position:absolute;left:calc(var(--l) + (100% - var(--l) - var(--r))*var(--x)/1000);transform:translateX(-50%);\
text-align:center;white-space:nowrap;line-height:14px}
.axis span:first-child{left:max(34px,calc(var(--l) + (100% - var(--l) - var(--r))*var(--x)/1000))}
.axis .l{transform:translateX(-95%);text-align:right}
.axis b{display:block;font-weight:400}

.o{position:relative;min-height:86px;border-bottom:1px solid var(--line)}
.o>summary{max-width:calc(var(--l) - 10px);padding-top:6px}
.on{color:var(--change)}
.oa{color:var(--first)}
.o::details-content{content-visibility:visible}
.o ol{margin:0;padding:0 0 0 2px;list-style:none}
.o:not([open]) ol{height:0}
.o:not([open]) li{height:0;overflow:hidden;visibility:hidden}
.o[open] ol{padding-top:66px;columns:3 260px;font-size:11px}
.o li::before,.o li::after,.o li b::before{content:\"\";visibility:visible;position:absolute;\
left:calc(var(--l) + (100% - var(--l) - var(--r))*var(--x)/1000);width:calc((100% - var(--l) - var(--r))*.02 - 1px)}
.o li::before{top:calc(42px - var(--n)*.36px);height:calc(var(--n)*.36px);background:var(--change)}
.o li::after{top:calc(42px - var(--f)*.36px);height:calc(var(--f)*.36px);background:var(--failed);\
width:calc((100% - var(--l) - var(--r))*.008)}
.o li b::before{top:calc(82px - var(--a)*.34px);height:calc(var(--a)*.34px);background:var(--fires)}

.bands{border-bottom:1px solid var(--line);padding:3px 0}
.bands p{position:relative;min-height:19px;padding-right:calc(100% - var(--l) + 8px);color:var(--dim);overflow:hidden}
.bands span{display:block;white-space:nowrap;overflow:hidden;text-overflow:ellipsis}
.bands b{display:block;position:absolute;top:3px;height:13px;left:calc(var(--l) + (100% - var(--l) - var(--r))*var(--x)/1000);\
width:calc((100% - var(--l) - var(--r))*var(--w)/1000);min-width:3px;--c:color-mix(in srgb,var(--band) 30%,transparent);\
background:var(--c);color:var(--text);font-weight:400;font-size:10px;line-height:13px;padding-left:3px;white-space:nowrap;overflow:visible}
.bands .d b{--c:color-mix(in srgb,var(--failed) 25%,transparent)}
.bands .t b{--c:color-mix(in srgb,var(--new) 30%,transparent)}
.bands .c b{--c:var(--change)}
.bands .l{display:flex;justify-content:flex-end;padding:0 3px 0 0}

.s>summary{padding:10px 0 3px;font:600 13px/1.4 system-ui,-apple-system,'Segoe UI',sans-serif}
.g{position:relative;border-top:1px solid var(--line);content-visibility:auto;contain-intrinsic-size:auto 23px;min-height:23px}
.g[hidden]{display:none}
.g,.g li{scroll-margin-top:34px}
.g>summary{padding:2px 0;max-width:calc(var(--l) - 8px);white-space:nowrap;overflow:hidden;text-overflow:ellipsis}
.g:not([open])>summary :is(em,i){float:right;padding-left:6px}
.g[open]>summary{max-width:none;white-space:normal;overflow-wrap:anywhere;font-weight:600}
.g::details-content{content-visibility:visible}
.g:not([open]) details::details-content{content-visibility:visible}
.g:not([open]) :is(h4,p),.g:not([open]) details>summary{display:none}
.g:not([open]) :is(ol,ul){height:0;margin:0;padding:0}
.g:not([open]) :is(li,li b,li u,li>a){display:block;height:0;overflow:hidden;visibility:hidden}
.g ol,.g ul{margin:0;padding:0}
.g ul{list-style:none}
.g ol{list-style-position:inside}
.g ol li::marker{content:\"#\" counter(list-item) \" \";color:var(--dim)}
.g li b::before,.g li u::before{content:\"\";visibility:visible;position:absolute;\
left:calc(var(--l) + (100% - var(--l) - var(--r))*var(--x)/1000);width:calc((100% - var(--l) - var(--r))*var(--w)/1000);min-width:2px;\
top:6px;height:10px}
.g li b::before,.legend b{background:var(--fires)}
.g:not([open]) li b::before{opacity:.75}
.g li u::before,.g li>a::before,.legend u{background-color:var(--fires);\
background-image:repeating-linear-gradient(45deg,var(--ground) 0 3px,transparent 3px 6px)}
.g li>a::before{content:\"\";visibility:visible;position:absolute;left:var(--l);right:var(--r);top:6px;height:10px;pointer-events:none;\
-webkit-mask-image:var(--m);mask-image:var(--m)}
.g[open] ol li{position:relative;padding-right:calc(100% - var(--l) + 8px);overflow-wrap:anywhere}
.g[open] :is(li b,li u,li>a){display:block;padding-left:2.2em;font-weight:400;text-decoration:none;color:var(--dim);font-size:11px}
.g[open] li>a{color:var(--change);text-decoration:underline}
.g .u{color:var(--band)}
.g h4{font:inherit;padding-top:5px;color:var(--dim)}
.g h4 i{font-style:normal;color:var(--text)}
.g[open] h4{max-width:calc(var(--l) - 8px);overflow-wrap:anywhere}
.g[open] ul{position:relative;padding:22px 0 0 1.2em;margin-top:-22px}
.g[open] ul:empty{padding:0;margin:0}
.g[open] ul li{padding-left:6px;overflow-wrap:anywhere}
.g p{color:var(--dim);padding:1px 0 6px;font-size:11px}
.g ul li::before,.legend .f::before,.legend .n::before,.legend .r::before,.legend .s::before,.legend .p::before,.legend .x::before,\
.legend .q::before{content:\"\";visibility:visible;position:absolute;width:11px;height:11px;z-index:1}
.g ul li::before{top:5px;left:calc(var(--l) + (100% - var(--l) - var(--r))*var(--x)/1000);margin-left:-5.5px}
.legend span::before{left:0;top:4px}
.legend .q::before{top:9px;height:3px;background:var(--dim)}
:is(.g ul,.legend) .f::before{background:var(--first);clip-path:polygon(50% 0,100% 50%,50% 100%,0 50%)}
:is(.g ul,.legend) .n::before{background:var(--new);clip-path:polygon(50% 0,100% 95%,0 95%)}
:is(.g ul,.legend) .r::before{background:var(--resolved);border:1px solid var(--ground)}
:is(.g ul,.legend) .s::before{background:var(--ground);border:3px solid var(--resolved)}
:is(.g ul,.legend) .p::before{background:var(--ground);border:2px solid var(--repeat);border-radius:50%}
:is(.g ul,.legend) .x::before{background:var(--failed);clip-path:polygon(20% 0,50% 30%,80% 0,100% 20%,70% 50%,100% 80%,80% 100%,50% 70%,\
20% 100%,0 80%,30% 50%,0 20%)}
.g ul .q::before{top:9px;height:3px;margin-left:0;width:calc((100% - var(--l) - var(--r))*var(--w)/1000);min-width:4px;\
background:var(--dim);z-index:0}
.g ul li:is([style*=w],[class*=w]):not(.q)::after{content:\"\";visibility:visible;position:absolute;top:10px;height:0;\
left:calc(var(--l) + (100% - var(--l) - var(--r))*(var(--x) - var(--w))/1000);width:calc((100% - var(--l) - var(--r))*var(--w)/1000);\
border-top:2px dotted var(--failed)}
.g ul .f{border-left:3px solid var(--first)}
.g ul .n{border-left:3px solid var(--new)}
.g ul :is(.r,.s){border-left:3px solid var(--resolved)}
.g ul .p{border-left:3px solid var(--repeat)}
.g ul .x{border-left:3px solid var(--failed)}
.g ul .q{border-left:3px solid var(--line)}
.g:not([open]) li{border:0}
#detail{position:fixed;left:0;right:0;bottom:0;max-height:40vh;overflow:auto;z-index:9;padding:8px 16px;background:var(--text);\
color:var(--ground);font:12px/1.45 ui-monospace,Menlo,Consolas,'DejaVu Sans Mono',monospace;white-space:pre-wrap;overflow-wrap:anywhere}
@media (max-width:1000px){:root{--l:0px;--r:8px}
body{margin:8px 8px 80px}
.o{min-height:110px}
.o>summary{max-width:none;font-size:10px}
.o li::before{top:calc(66px - var(--n)*.36px)}
.o li::after{top:calc(66px - var(--f)*.36px)}
.o li b::before{top:calc(106px - var(--a)*.34px)}
.o[open] ol{padding-top:94px}
.bands p{padding:0 0 18px;min-height:36px}
.bands span{white-space:normal;overflow-wrap:anywhere}
.bands b,.bands .l{display:inline;position:static;height:auto;padding:0;background:none;white-space:normal}
.bands b:nth-of-type(n+9){font-size:0}
.bands b::before{content:\"\";position:absolute;bottom:3px;height:13px;left:calc((100% - var(--r))*var(--x)/1000);\
width:calc((100% - var(--r))*var(--w)/1000);min-width:3px;background:var(--c)}
.g{contain-intrinsic-size:auto 42px;min-height:42px}
.g>summary{max-width:none}
.g:not([open]) :is(li b,li u,li>a)::before{top:26px}
.g:not([open]) ul li::before{top:25px}
.g:not([open]) ul .q::before{top:29px}
.g:not([open]) ul li:is([style*=w],[class*=w]):not(.q)::after{top:30px}
.g[open] ol li{padding-right:0;padding-bottom:15px}
.g[open] ol li :is(b,u,a)::before{top:auto;bottom:3px}
.g[open] h4{max-width:none}
.g[open] ul{margin-top:0}
.axis span:nth-child(even){display:none}
.grid .c{opacity:.35}}
";
