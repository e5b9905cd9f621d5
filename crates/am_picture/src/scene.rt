//! `Scene`: what the rows of a page are drawn from, and `Place`: where one of them is.
use crate::gather::Gathered;
use crate::mute_lists::MuteLists;
use crate::story::Story;

/// What the rows are drawn from.
#[derive(Clone, Copy)]
pub(crate) struct Scene<'s> {
    pub(crate) story: &'s Story<'s>,
    pub(crate) gathered: &'s Gathered,
    pub(crate) lists: &'s MuteLists,
}

/// A fold, by its position.
#[derive(Clone, Copy)]
pub(crate) struct Place<'s> {
    pub(crate) scene: Scene<'s>,
    pub(crate) fold: usize,
}
