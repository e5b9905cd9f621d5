//! The pointer of a planned action.
ghost use Rattle.am_json.specs.Read.{IsRefusedBy};

use am_json::fault::{FaultKind, InputFault};
use am_json::pointer::JsonPointer;
use std::alloc::Global;

/// Where a plan is in the input: the number of its item, and of its span, if the item lists them.
#[derive(Clone, Copy, PartialEq, Eq)]
pub enum Origin {
    Alert { item: usize, span: Option<usize> },
    Silence { item: usize },
}

impl Origin {
    /// A limit leaves no capacity for the plan.
    pub fn refuse_full(&self, alloc: Global) -> InputFault
        ensures { IsRefusedBy FaultKind.Full result }
    {
        self.refuse(alloc, FaultKind::Full)
    }

    /// What is made of the plan's members is refused.
    pub fn refuse_value(&self, alloc: Global) -> InputFault
        ensures { IsRefusedBy FaultKind.BadValue result }
    {
        self.refuse(alloc, FaultKind::BadValue)
    }

    fn refuse(&self, alloc: Global, fault_kind: FaultKind) -> InputFault
        ensures { IsRefusedBy fault_kind result }
    {
        let top = JsonPointer::Root;
        match self {
            Origin::Silence { item } => top
                .member("silences")
                .item(*item)
                .refuse(alloc, fault_kind),
            Origin::Alert { item, span: None } => {
                top.member("alerts").item(*item).refuse(alloc, fault_kind)
            }
            Origin::Alert {
                item,
                span: Some(span),
            } => top
                .member("alerts")
                .item(*item)
                .member("spans")
                .item(*span)
                .refuse(alloc, fault_kind),
        }
    }
}
