ghost use Rattle.std.specs.Prelude.{◌≡◌, ◌+◌, ◌==◌, ◌∷◌, [], IfOk, OnOk};
ghost use Rattle.std.specs.List.{list_any};
ghost use Rattle.form_shapes.specs.Levels.{number_of as number_in};
ghost use Rattle.form_shapes.specs.inside.Keys.{IsKey, IsLast};

use lisp_base::id::SymbolId;
use lisp_base::memory::Memory;
use std::alloc::Global;
use std::marker::Model;

/// Something that is open round a form in its call, has a number there, and can be named.
#[derive(Clone, Copy)]
pub enum Level {
    /// A lexical variable.
    Variable(SymbolId),
    /// The entry of a block with this name.
    Block(SymbolId),
    /// What a written `without-interrupts` remembers.
    Region,
}

/// A level with its number.
#[derive(Clone, Copy)]
pub struct Numbered {
    pub level: Level,
    pub number: u32,
}

/// The key of the block whose name is symbol 0. The key of a variable is its symbol.
const BLOCKS: u32 = 2_147_483_648;

/// The key of what a written `without-interrupts` remembers.
const REGION: u32 = 4_294_967_295;

/// How many keys are looked at together.
const TOGETHER: usize = 32;

/// For how many more levels a copy has room.
const ROOM: usize = 4;

/// All that is open and can be named. Contracts see a list, the innermost first.
#[derive(Drop)]
pub struct Levels {
    /// A key for each level, the innermost last.
    keys: Vec<u32>,
    /// The number of each.
    numbers: Vec<u32>,
}

impl Model for Levels {
    ghost use Rattle.std.specs.Prelude.{◌≡◌, List, [], length};
    ghost use Rattle.form_shapes.specs.declared.levels.Numbered.{Numbered};
    ghost use Rattle.form_shapes.specs.inside.Keys.{levels_of};

    ghost Value = { List Numbered };

    ghost view = { λ l. levels_of [] l.keys.items l.numbers.items };

    ghost invariant = { λ l. length l.keys.items ≡ length l.numbers.items };
}

/// The key of a level: no other level has it. The block with the last name that there can be has none, and no text has so many names.
#[tactic(auto, using(crate::proofs::Keys::keys))]
fn key_of(level: &Level) -> Option<u32>
    ensures { IsKey level.now result }
{
    match level {
        Level::Variable(symbol) => Some(symbol.number()),
        Level::Block(name) => {
            let key = BLOCKS + name.number();
            if key == REGION { None } else { Some(key) }
        }
        Level::Region => Some(REGION),
    }
}

/// Whether one of the keys is this one. It looks at all of them, which is faster than to stop at the first that is.
fn holds(keys: &[u32], sought: u32) -> bool
    ensures { result ≡ list_any (λ key. key == sought) keys.now }
{
    let mut any = false;
    for key in keys {
        any |= *key == sought;
    }
    any
}

/// The place of the last of the keys that is this one, looked at one by one.
fn last_in(keys: &[u32], sought: u32) -> Option<usize>
    ensures { IsLast sought keys.now result }
{
    keys.iter().rposition(|key| *key == sought)
}

/// The place of the last of the keys that is this one. Many keys are looked at together.
fn last_of(keys: &[u32], sought: u32) -> Option<usize>
    ensures { IsLast sought keys.now result }
{
    let mut left = keys;
    while left.len() > TOGETHER {
        let (front, last) = left.split_at(left.len() - TOGETHER);
        if holds(last, sought) {
            break;
        }
        left = front;
    }
    last_in(left, sought)
}

impl Levels {
    /// Nothing is open. It takes no memory.
    pub fn none(alloc: Global) -> Levels
        ensures { result ≡ [] }
    {
        Levels {
            keys: Vec::new(alloc),
            numbers: Vec::new(alloc),
        }
    }

    /// A copy of these levels, with room for some more.
    pub fn copied(&self, alloc: Global) -> Result<Levels, Memory>
        ensures { IfOk result (λ same. same ≡ self.now) }
    {
        let room = self.keys.len().saturating_add(ROOM);
        let mut keys = Vec::with_capacity(alloc, room)?;
        keys.extend_from_slice(self.keys.as_slice())?;
        let mut numbers = Vec::with_capacity(alloc, room)?;
        numbers.extend_from_slice(self.numbers.as_slice())?;
        Ok(Levels { keys, numbers })
    }

    /// Opens one more inside.
    #[tactic(auto, using(crate::proofs::Keys::levels_pushed))]
    pub fn push(&mut self, level: Level, number: u32) -> Result<(), Memory>
        ensures { OnOk result (self.new ≡ (record { level = level; number = number }) ∷ self.old) }
    {
        let Some(key) = key_of(&level) else {
            return Err(Memory);
        };
        self.numbers.reserve(1)?;
        self.keys.push(key)?;
        self.numbers.push_reserved(number);
        Ok(())
    }

    /// The number of the innermost level that is this one.
    #[tactic(auto, using(crate::proofs::Keys::found))]
    pub fn number_of(&self, sought: &Level) -> Option<u32>
        ensures { result ≡ number_in sought.now self.now }
    {
        let keys = self.keys.as_slice();
        let at = last_of(keys, key_of(sought)?)?;
        Some(self.numbers[at])
    }
}

/// The number after this one. It errs where its type has none, which no text reaches.
pub fn next(depth: u32) -> Result<u32, Memory>
    ensures { IfOk result (λ after. after ≡ depth + 1) }
{
    match depth.checked_add(1) {
        Some(after) => Ok(after),
        None => Err(Memory),
    }
}
