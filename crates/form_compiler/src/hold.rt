//! What a call holds before a line.
ghost use Rattle.std.specs.Prelude.{◌≡◌, IfOk};
ghost use Rattle.form_compiler.specs.inside.Gives.{with_more as more_of};
ghost use Rattle.lisp_code.specs.Held;

use crate::operands::written;
use form_points::act::Opening;
use lisp_base::memory::Memory;
use std::marker::Model;

/// How many things are open in a call, and how many operands there are.
#[derive(Clone, Copy)]
pub struct Hold {
    opened: u32,
    height: u32,
}

impl Model for Hold {
    ghost use Rattle.lisp_code.specs.Held.{Holding};

    ghost Value = { Holding };

    ghost view = { λ h. record { opened = h.opened; height = h.height } };

    ghost inverse = { λ h. record { opened = h.opened; height = h.height } };
}

impl Hold {
    /// So many things open, and no operand.
    pub fn begun(opened: u32) -> Self
        ensures { result ≡ record { opened = opened; height = 0 } }
    {
        Hold { opened, height: 0 }
    }

    /// With one operand more.
    pub fn one_more(self) -> Result<Self, Memory>
        ensures { IfOk result (λ h. h ≡ Held.one_more self) }
    {
        let height = self.height.checked_add(1).ok_or(Memory)?;
        Ok(Hold {
            opened: self.opened,
            height,
        })
    }

    /// With so many operands more.
    #[tactic(auto, using(crate::proofs::Heights::with_so_many))]
    pub fn with_more(self, count: usize) -> Result<Self, Memory>
        ensures { IfOk result (λ h. h ≡ more_of count self) }
    {
        let height = u32::try_from(self.height as u128 + count as u128).map_err(|_| Memory)?;
        Ok(Hold {
            opened: self.opened,
            height,
        })
    }

    /// With so many operands fewer, or none.
    pub fn without(self, count: u32) -> Self
        ensures { result ≡ Held.without count self }
    {
        self.fewer(count as usize)
    }

    /// The same, where the count may be larger than any number of operands.
    #[tactic(auto, using(crate::proofs::Heights::without_so_many))]
    pub(crate) fn fewer(self, count: usize) -> Self
        ensures { result ≡ Held.without count self }
    {
        Hold {
            opened: self.opened,
            height: (self.height as usize).saturating_sub(count) as u32,
        }
    }

    /// Without the first operand.
    pub fn without_one(self) -> Self
        ensures { result ≡ Held.without 1 self }
    {
        self.without(1)
    }

    /// With the first operand open as a variable, or as a binding.
    pub fn bound(self) -> Result<Self, Memory>
        ensures { IfOk result (λ h. h ≡ Held.bound self) }
    {
        self.without_one().one_open()
    }

    /// With one thing more that is open.
    pub(crate) fn one_open(self) -> Result<Self, Memory>
        ensures { IfOk result (λ h. h ≡ Held.one_open self) }
    {
        let opened = self.opened.checked_add(1).ok_or(Memory)?;
        Ok(Hold {
            opened,
            height: self.height,
        })
    }

    /// Without the variable that was opened last.
    pub(crate) fn one_closed(self) -> Self
        ensures { result ≡ Held.one_closed self }
    {
        Hold {
            opened: self.opened.saturating_sub(1),
            height: self.height,
        }
    }

    /// What is held in the frame that is opened.
    pub fn inside(self, opening: &Opening) -> Result<Self, Memory>
        ensures { IfOk result (λ h. h ≡ Held.inside opening.now self) }
    {
        match opening {
            Opening::Bind(_, _) => self.bound(),
            Opening::Block(_) | Opening::WithoutInterrupts(_) => self.one_open(),
            Opening::Catch
            | Opening::AllowWithInterrupts(_)
            | Opening::WithInterrupts
            | Opening::Deadline { .. } => Ok(self.outside(opening)),
        }
    }

    /// What is held round a frame, without the value of its body.
    pub fn outside(self, opening: &Opening) -> Self
        ensures { result ≡ Held.outside opening.now self }
    {
        match opening {
            Opening::Bind(_, above) => self.without(*above).without_one(),
            Opening::Catch => self.without_one(),
            Opening::Deadline { seconds, replaces } => self.fewer(written(*seconds, *replaces)),
            Opening::Block(_)
            | Opening::WithoutInterrupts(_)
            | Opening::AllowWithInterrupts(_)
            | Opening::WithInterrupts => self,
        }
    }

    /// How many values these are.
    pub fn total(self) -> Result<u32, Memory>
        ensures { IfOk result (λ n. n ≡ Held.total self) }
    {
        self.opened.checked_add(self.height).ok_or(Memory)
    }

    /// How many operands there are.
    pub(crate) fn height(self) -> u32
        ensures { result ≡ self.height }
    {
        self.height
    }
}
