//! The first fault of several, for a caller that looks at the rest before it reports it.
ghost use Rattle.std.specs.Prelude.{◌≡◌, IfErr, IfOk, IfSome, IsErr, None, Some, false};

use cli_support::Fault;

/// The first of the faults that were kept, if there is one.
#[derive(Drop)]
pub struct FirstFault {
    /// The fault.
    pub fault: Option<Fault>,
}

impl FirstFault {
    /// No fault.
    pub fn none() -> FirstFault
        ensures { result.fault ≡ None }
    {
        FirstFault { fault: None }
    }

    /// Keeps a fault, if it is the first one.
    pub fn keep(&mut self, fault: Fault)
        ensures first { self.old.fault ≡ None → self.new.fault ≡ Some fault }
        ensures later { IfSome self.old.fault (λ kept. self.new.fault ≡ Some kept) }
    {
        if self.fault.is_none() {
            self.fault = Some(fault);
        }
    }

    /// The fault that was kept, or else this one.
    pub(crate) fn or(&mut self, fault: Fault) -> Fault
        ensures first { IfSome self.old.fault (λ kept. result ≡ kept) }
        ensures other { self.old.fault ≡ None → result ≡ fault }
    {
        match self.fault.take() {
            Some(kept) => kept,
            None => fault,
        }
    }

    /// Whether it is so, as far as that was read. Where it was not, the fault is kept.
    pub(crate) fn is_so(&mut self, read: Result<bool, Fault>) -> bool
        ensures read { IfOk read (λ is_so. result ≡ is_so) }
        ensures unread { IsErr read → result ≡ false }
        ensures first { IfErr read (λ fault. self.old.fault ≡ None → self.new.fault ≡ Some fault) }
    {
        match read {
            Ok(is_so) => is_so,
            Err(fault) => {
                self.keep(fault);
                false
            }
        }
    }
}
