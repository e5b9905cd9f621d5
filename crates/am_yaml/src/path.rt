//! The way to a value that is looked for, while a text is read.
use std::alloc::{AllocError, Global};

/// A step of a JSON pointer.
#[derive(Drop)]
pub(crate) struct Step {
    /// The name of a member.
    name: String,
    /// The same as the number of an item, if it is one.
    index: Option<usize>,
}

/// The steps to a value, and how far they were gone.
#[derive(Clone, Copy)]
pub(crate) struct Path<'t> {
    steps: &'t [Step],
    /// How many steps lead to what is read now.
    open: usize,
    /// How many steps lead to the last value that they led to.
    taken: usize,
    /// The offset of its key, or of the value where there is no key.
    key_at: usize,
    /// The offset of the last value.
    value_at: usize,
    /// Whether the last value still has to be met.
    is_awaited: bool,
}

/// Returns the steps of a JSON pointer.
pub(crate) fn steps_of(alloc: Global, pointer: &str) -> Result<Vec<Step>, AllocError> {
    let mut steps = Vec::new(alloc);
    let Some(way) = pointer.strip_prefix("/") else {
        return Ok(steps);
    };
    for written in way.split('/') {
        steps.push(Step {
            name: name_of(alloc, written)?,
            index: written.parse::<usize>().ok(),
        })?;
    }
    Ok(steps)
}

/// Returns the name that a step of a JSON pointer writes: `~1` is `/`, and `~0` is `~`.
fn name_of(alloc: Global, written: &str) -> Result<String, AllocError> {
    let mut name = String::new(alloc);
    let mut is_escaped = false;
    for character in written.chars() {
        match character {
            '~' if !is_escaped => is_escaped = true,
            '0' if is_escaped => {
                name.push('~')?;
                is_escaped = false;
            }
            '1' if is_escaped => {
                name.push('/')?;
                is_escaped = false;
            }
            _ => {
                name.push(character)?;
                is_escaped = false;
            }
        }
    }
    Ok(name)
}

impl<'t> Path<'t> {
    /// Returns the way of these steps, none of which was gone.
    pub(crate) fn new(steps: &'t [Step]) -> Path<'t> {
        Path {
            steps,
            open: 0,
            taken: 0,
            key_at: 0,
            value_at: 0,
            is_awaited: true,
        }
    }

    /// Goes a step if it leads to the member of this name, so many levels below the top, and says whether it does. Of two
    /// members of one name the last counts.
    pub(crate) fn enter_member(&mut self, depth: usize, name: &str, at: usize) -> bool {
        let is_step = match self.next_step(depth) {
            Some(step) => step.name.as_str() == name,
            None => false,
        };
        is_step && self.go(at)
    }

    /// Goes a step if it leads to the item of this number, so many levels below the top, and says whether it does.
    pub(crate) fn enter_item(&mut self, depth: usize, index: usize, at: usize) -> bool {
        let is_step = match self.next_step(depth) {
            Some(step) => step.index == Some(index),
            None => false,
        };
        is_step && self.go(at)
    }

    /// Leaves a member or an item behind, if a step led to it.
    pub(crate) fn leave(&mut self, is_entered: bool) {
        if is_entered {
            self.open = self.open.saturating_sub(1);
            // (an empty value is at its key)
            self.is_awaited = false;
        }
    }

    /// Notes where the value begins that a step has just led to.
    pub(crate) fn meet(&mut self, at: usize) {
        if self.is_awaited {
            self.value_at = at;
            self.is_awaited = false;
        }
    }

    /// Returns whether all steps were gone.
    pub(crate) fn is_whole(&self) -> bool {
        self.taken >= self.steps.len()
    }

    /// Returns the offset of the key to which the last step led.
    pub(crate) fn key_at(&self) -> usize {
        self.key_at
    }

    /// Returns the offset of the value to which the last step led.
    pub(crate) fn value_at(&self) -> usize {
        self.value_at
    }

    /// Returns the step that can be gone so many levels below the top.
    fn next_step(&self, depth: usize) -> Option<&'t Step> {
        if depth != self.open {
            return None;
        }
        self.steps.get(depth)
    }

    fn go(&mut self, at: usize) -> bool {
        self.open = self.open.saturating_add(1);
        self.taken = self.open;
        self.key_at = at;
        self.value_at = at;
        self.is_awaited = true;
        true
    }
}
