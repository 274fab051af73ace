ghost use Rattle.std.specs.Prelude.{◌≡◌};

use crate::function::{Primitive, Printing, Service};
use lisp_base::condition::{Class, Condition};
use lisp_base::id::{FunctionName, Place, SymbolId};
use lisp_base::value::Value;
use std::marker::Model;

/// The kinds of core forms. Lexical variables, the entries of blocks and what a `without-interrupts` remembers are numbered
/// in each call: first the parameters, then one number for each that is open round them.
#[derive(Clone, Copy, Debug, PartialEq, Eq)]
pub enum CoreKind {
    Constant(Value),
    /// The present thread.
    CurrentThread,
    /// A function in a function's seat: a function of the program, one made by `lambda`, or that of `terminate-thread`.
    Function(FunctionName),
    /// A lexical variable.
    Local(u32),
    /// A special variable.
    Special(SymbolId),
    /// `setq` of a lexical variable; its value stands under it.
    SetLocal(u32),
    /// `setq` of a special variable; its value stands under it.
    SetSpecial(SymbolId),
    /// `defvar` of a special variable; its value stands under it.
    Defvar(SymbolId),
    /// `defparameter` of a special variable; its value stands under it.
    Defparameter(SymbolId),
    /// `defun` of a function. Its body is not under it.
    Defun(SymbolId),
    /// `compare-and-swap` of a special variable; two values stand under it.
    CompareAndSwap(SymbolId),
    Progn,
    /// A test and two forms stand under it.
    If,
    /// A loop: its test stands under it, and then its body.
    While,
    /// `let`: the values of its variables stand under it, and then one `BindLocal` or `BindSpecial`.
    Let,
    /// A lexical variable of a `let`, with its number, which takes the value that has so many others before it. Under it stands
    /// the next variable, or the body.
    BindLocal(u32, u32),
    /// A special variable of a `let`, which takes the value that has so many others before it. Under it stands the next variable,
    /// or the body.
    BindSpecial(SymbolId, u32),
    /// A call of a function of the program; its arguments stand under it.
    Call(SymbolId),
    /// A function with local points; its arguments stand under it, as they do in the next two kinds.
    Apply(Primitive),
    Print(Printing),
    Serve(Service),
    /// `block`, with the number of its entry. Its body stands under it.
    Block(u32),
    /// `return-from`, with the number of its block's entry. A value stands under it.
    ReturnFrom(u32),
    /// A tag stands under it, and then a body.
    Catch,
    /// A tag and a value stand under it.
    Throw,
    /// The protected form stands under it, and then the cleanup forms.
    UnwindProtect,
    /// `without-interrupts`, with the number of what it remembers. Its body stands under it.
    WithoutInterrupts(u32),
    /// `allow-with-interrupts`, with the number of what its `without-interrupts` remembers. Its body stands under it.
    AllowWithInterrupts(u32),
    /// Its body stands under it.
    WithInterrupts,
    /// A form stands under it, and then its clauses.
    HandlerCase,
    /// A clause of this class without a variable. Its body stands under it.
    Clause(Class),
    /// A clause of this class, with the number of its variable. Its body stands under it.
    ClauseWith(Class, u32),
    /// Signals a condition: `error`, and what the function of `with-timeout` does.
    Signal(Condition),
    /// `with-deadline`: the seconds and the override that are written stand under it, and then its body.
    WithDeadline { seconds: bool, replaces: bool },
    AbortThread,
    /// A value stands under it.
    ReturnFromThread,
}

/// One form of a program in preorder: its kind, its place, and how many forms stand directly under it.
#[derive(Clone, Copy, Debug, PartialEq, Eq)]
pub struct FormNode {
    pub kind: CoreKind,
    pub place: Place,
    pub parts: u32,
}

/// A function of a program: a `defun`, a `lambda`, or what `with-timeout` makes. Contracts see its body as the list of its nodes.
#[derive(Debug, Drop)]
pub struct FunctionForm {
    name: FunctionName,
    place: Place,
    params: u32,
    body: Vec<FormNode>,
}

impl Model for FunctionForm {
    ghost use Rattle.lisp_program.specs.Program.{FlatFunction};

    ghost Value = { FlatFunction };

    ghost view = { λ f. record { name = f.name; place = f.place; params = f.params; body = f.body.items } };
}

impl FunctionForm {
    /// The function with this name, whose form is at this place, with so many parameters and this body. It takes no memory.
    pub fn of(name: FunctionName, place: Place, params: u32, body: Vec<FormNode>) -> Self
        ensures { result ≡ record { name = name; place = place; params = params; body = body.items } }
    {
        FunctionForm {
            name,
            place,
            params,
            body,
        }
    }

    /// Its name.
    pub fn name(&self) -> FunctionName
        ensures { result ≡ self.now.name }
    {
        self.name
    }

    /// Where its form stands.
    pub fn place(&self) -> Place
        ensures { result ≡ self.now.place }
    {
        self.place
    }

    /// How many parameters it has.
    pub fn params(&self) -> u32
        ensures { result ≡ self.now.params }
    {
        self.params
    }

    /// The forms of its body, in preorder.
    pub fn body(&self) -> &[FormNode]
        ensures { result.now ≡ self.now.body }
    {
        self.body.as_slice()
    }
}

/// A program: main's forms, its functions, and its special variables in order of definition. Contracts see lists of nodes.
#[derive(Debug, Drop)]
pub struct Program {
    main: Vec<FormNode>,
    functions: Vec<FunctionForm>,
    specials: Vec<SymbolId>,
}

impl Model for Program {
    ghost use Rattle.lisp_program.specs.Program.{FlatProgram};

    ghost Value = { FlatProgram };

    ghost view = { λ p. record { main = p.main.items; functions = p.functions.items; specials = p.specials.items } };
}

impl Program {
    /// The program with these forms, functions and special variables. It takes no memory.
    pub fn of(main: Vec<FormNode>, functions: Vec<FunctionForm>, specials: Vec<SymbolId>) -> Self
        ensures { result ≡ record { main = main.items; functions = functions.items; specials = specials.items } }
    {
        Program {
            main,
            functions,
            specials,
        }
    }

    /// Main's forms, in preorder.
    pub fn main(&self) -> &[FormNode]
        ensures { result.now ≡ self.now.main }
    {
        self.main.as_slice()
    }

    /// Its functions.
    pub fn functions(&self) -> &[FunctionForm]
        ensures { result.now ≡ self.now.functions }
    {
        self.functions.as_slice()
    }

    /// Its special variables, in order of definition.
    pub fn specials(&self) -> &[SymbolId]
        ensures { result.now ≡ self.now.specials }
    {
        self.specials.as_slice()
    }
}
