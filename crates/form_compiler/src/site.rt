//! A node of a form, as its tasks need it.
ghost use Rattle.std.specs.Prelude.{◌≡◌};

use crate::hold::Hold;
use lisp_base::id::Place;
use std::marker::Model;

/// A node in its form: where its form stands, what is held before it, where its lines begin and end, where its second part begins,
/// how many forms are under it, and, if it is a clause, where it goes on, and the place of its `handler-case`.
#[derive(Clone, Copy)]
pub struct Site {
    pub place: Place,
    pub hold: Hold,
    pub at: u32,
    pub end: u32,
    pub second: u32,
    pub forms: usize,
    pub to: u32,
    pub way_place: Place,
}

impl Model for Site {
    ghost use Rattle.form_compiler.specs.inside.Tasks.{Site as SiteOf};

    ghost Value = { SiteOf };

    ghost view = { λ s. record { place = s.place; holding = s.hold; at = s.at; end = s.end; second = s.second; forms = s.forms; way = record { to = s.to; place = s.way_place } } };

    ghost inverse = { λ s. record { place = s.place; hold = s.holding; at = s.at; end = s.end; second = s.second; forms = s.forms; to = s.way.to; way_place = s.way.place } };
}
