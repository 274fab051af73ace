ghost use Rattle.std.specs.Prelude.{◌≡◌, ◌==◌, [], ◌∷◌, length, OnOk};
ghost use Rattle.std.specs.Bool.{OnFalse, OnTrue};
ghost use Rattle.lisp_reader.specs.Gathering.{closed_by, settled};
ghost use Rattle.lisp_reader.specs.inside.Marking.{innermost_place};

use lisp_base::id::Place;
use lisp_base::memory::Memory;
use std::alloc::Global;
use std::marker::Model;

/// At most so many lists and quotes are open at once.
const MOST_OPEN: usize = 256;

/// What is open, with the place where it began.
#[derive(Clone, Copy)]
pub enum Opening {
    /// A list.
    List(Place),
    /// A quote that waits for what it quotes.
    Quote(Place),
}

/// All that is open, which contracts see as a list, the innermost first.
#[derive(Drop)]
pub struct Opens {
    items: Vec<Opening>,
}

impl Model for Opens {
    ghost use Rattle.std.specs.Prelude.{List, reverse};
    ghost use Rattle.lisp_reader.specs.declared.opens.Opening.{Opening};

    ghost Value = { List Opening };

    ghost view = { λ o. reverse o.items.items };
}

impl Opens {
    /// Nothing is open. It takes no memory.
    pub fn new(alloc: Global) -> Self
        ensures { result ≡ [] }
    {
        Opens {
            items: Vec::new(alloc),
        }
    }

    /// Whether nothing more may open.
    pub fn is_full(&self) -> bool
        ensures { result ≡ (length self.now == 256) }
    {
        self.items.len() == MOST_OPEN
    }

    /// Opens something inside what is open.
    pub fn push(&mut self, opening: Opening) -> Result<(), Memory>
        ensures { OnOk result (self.new ≡ opening ∷ self.old) }
    {
        self.items.push(opening)?;
        Ok(())
    }

    /// Ends a datum, and with it all quotes that wait for it.
    pub fn settle(&mut self)
        ensures { self.new ≡ settled self.old }
    {
        while let Some(Opening::Quote(_)) = self.items.last() {
            self.items.pop();
        }
    }

    /// Takes the innermost away where it is a list, and says whether it is one.
    pub fn close(&mut self) -> bool
        ensures closed { OnTrue result (closed_by self.old ≡ Some self.new) }
        ensures unmatched { OnFalse result (closed_by self.old ≡ None) }
    {
        match self.items.pop() {
            Some(Opening::List(_)) => true,
            _ => false,
        }
    }

    /// The place of the innermost that is open.
    pub fn innermost(&self) -> Option<Place>
        ensures { result ≡ innermost_place self.now }
    {
        match self.items.last() {
            Some(Opening::List(place)) => Some(*place),
            Some(Opening::Quote(place)) => Some(*place),
            None => None,
        }
    }
}
