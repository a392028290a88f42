//! Edits made, and their inverses.

ghost use Rattle.std.specs.Prelude.{◌≡◌, IfSome, IfNone, IfOk, OnOk, OnErr, IsOk, IsErrOf};
ghost use Rattle.transyt_net.specs.EditFaults.{edit_fault};
ghost use Rattle.transyt_net.specs.Edits.{with_edit, inverse, named, NamesNode, NamesLink};
ghost use Rattle.transyt_net.specs.Valid.{IsValid};
ghost use Rattle.transyt_net.specs.Parts.{SameShape};

use super::Net;
use crate::edit::{Edit, EditFault, edit_link, edit_node};
use transyt_parts::all_flow;

impl Net {
    /// Makes an edit, and gives its inverse, which is allowed then and gives the network before.
    ///
    /// It refuses exactly as `judge` does, and a refusal changes nothing. It takes no memory.
    pub fn apply(&mut self, e: Edit) -> Result<Edit, EditFault>
        ensures fault { IfSome (edit_fault self.old e) (λ fault. IsErrOf result fault) }
        ensures none { IfNone (edit_fault self.old e) (IsOk result) }
        ensures ok { OnOk result (self.new ≡ with_edit self.old e) }
        ensures back { IfOk result (λ back. back ≡ inverse self.old e) }
        ensures undoes { IfOk result (λ back. with_edit self.new back ≡ self.old) }
        ensures allowed { IfOk result (λ back. edit_fault self.new back ≡ None) }
        ensures shape { OnOk result (SameShape self.new self.old) }
        ensures err { OnErr result (self.new ≡ self.old) }
        ensures valid { IsValid self.new }
    {
        // This brings the type's invariant into scope: the network is valid before the edit.
        let _ = &self.frame;
        if let Some(fault) = self.judge(&e) {
            return Err(fault);
        }
        Ok(self.change(&e))
    }

    /// Makes an allowed edit, and gives its inverse.
    fn change(&mut self, e: &Edit) -> Edit
        requires { edit_fault self.old e.now ≡ None }
        ensures value { self.new ≡ with_edit self.old e.now }
        ensures back { result ≡ inverse self.old e.now }
    {
        match *e {
            Edit::Offset { node, .. } => self.change_node(node, e),
            Edit::Change { node, .. } => self.change_node(node, e),
            Edit::Entry { link, .. } => self.change_link(link, e),
            Edit::Part { link, .. } => self.change_link(link, e),
            Edit::Cruise { link, .. } => self.change_link(link, e),
            Edit::Saturation { link, .. } => self.change_link(link, e),
            Edit::Weight { link, .. } => self.change_link(link, e),
        }
    }

    /// Makes an allowed edit of this node, and gives its inverse.
    fn change_node(&mut self, number: u32, e: &Edit) -> Edit
        requires names { named e.now ≡ NamesNode number }
        requires allowed { edit_fault self.old e.now ≡ None }
        ensures value { self.new ≡ with_edit self.old e.now }
        ensures back { result ≡ inverse self.old e.now }
    {
        let Some(place) = self.node_places.place(number) else {
            unreachable!();
        };
        let node = &mut self.nodes[place];
        edit_node(node, e)
    }

    /// Makes an allowed edit of this link, and gives its inverse.
    fn change_link(&mut self, number: u32, e: &Edit) -> Edit
        requires names { named e.now ≡ NamesLink number }
        requires allowed { edit_fault self.old e.now ≡ None }
        ensures value { self.new ≡ with_edit self.old e.now }
        ensures back { result ≡ inverse self.old e.now }
    {
        let Some(place) = self.link_places.place(number) else {
            unreachable!();
        };
        let link = &mut self.links[place];
        let back = edit_link(link, e);
        self.totals[place] = all_flow(link);
        back
    }
}
