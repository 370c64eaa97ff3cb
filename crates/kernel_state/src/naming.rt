//! The tests that services share: what a reference names, and why a pointer or a delete is refused.
//!
//! Nothing is changed here: a test answers an object, or the status with which the service refuses.
ghost use Rattle.std.specs.Prelude.{◌≡◌, IfSome, true};
ghost use Rattle.object_grants.specs.Slot.{is_in, is_kind};
ghost use Rattle.object_grants.specs.Table.{slot};
ghost use Rattle.object_grants.specs.declared.slot.SlotState.TheVariants.{Empty};
ghost use Rattle.kernel_state.specs.Kernel.{is_live_of, module_of};
ghost use Rattle.kernel_state.specs.Tests.{named, reserved, owner_refusal, caller_refusal};

use crate::kernel::Kernel;
use call_arguments::pointer_refusal;
use region_guard::{Access, Guard};
use tx_types::{Code, Kind, ObjNo, ObjRef, ThreadNo};

impl Kernel {
    /// The Live object of a kind that a reference names, where the caller's module owns it or was
    /// granted it.
    pub fn named(&self, by: ThreadNo, r: u32, kind: Kind) -> Option<ObjNo>
        ensures value { result ≡ named self.now by r kind }
        ensures live { IfSome result (λ o. is_live_of kind (slot self.now.objects o) ≡ true) }
    {
        self.objects
            .resolve(self.module_of(by), ObjRef::new(r), kind)
    }

    /// The Empty slot of a kind that a reference names, where it is the caller's module's own.
    pub fn reserved(&self, by: ThreadNo, r: u32, kind: Kind) -> Option<ObjNo>
        ensures value { result ≡ reserved self.now by r kind }
        ensures empty { IfSome result (λ o. is_in Empty (slot self.now.objects o) ≡ true) }
        ensures kind { IfSome result (λ o. is_kind kind (slot self.now.objects o) ≡ true) }
        ensures own { IfSome result (λ o. (slot self.now.objects o).owner ≡ module_of self.now by) }
    {
        self.objects.empty(self.module_of(by), ObjRef::new(r), kind)
    }

    /// CALLER_ERROR unless the caller's module owns the object.
    pub fn owner_refusal(&self, by: ThreadNo, o: ObjNo) -> Option<Code>
        ensures { result ≡ owner_refusal self.now by o }
    {
        if self.objects.may_delete(self.module_of(by), o) {
            None
        } else {
            Some(Code::CALLER_ERROR)
        }
    }

    /// Why the caller may not give a pointer to n bytes for this access.
    pub fn caller_refusal(
        &self,
        g: &Guard,
        by: ThreadNo,
        access: Access,
        x: u32,
        n: u32,
    ) -> Option<Code>
        ensures { result ≡ caller_refusal self.now g.now by access x n }
    {
        pointer_refusal(g, self.module_of(by), access, x, n)
    }
}
