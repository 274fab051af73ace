ghost use Rattle.std.specs.Prelude.{◌≡◌, ◌<◌, ◌^◌};
ghost use Rattle.form_shapes.specs.Keywords;

use crate::scope::{first_symbol, is_named};
use lisp_data::items::Items;
use lisp_program::function::Service;
use symbol_table::symbols::Symbols;

/// Which of two keywords are written.
#[derive(Clone, Copy)]
pub struct Keys {
    pub first: bool,
    pub second: bool,
}

/// What an argument is for.
#[derive(Clone, Copy)]
pub enum Role {
    /// A form that gives a value.
    Value,
    /// A function: the argument is a function's seat, as the first of `make-thread` is.
    Seat,
    /// No form: a name, a keyword, or a string that stands for nothing.
    Skipped,
}

/// What the arguments of a form are for.
#[derive(Clone, Copy)]
pub enum Roles {
    /// All after the first so many are values.
    From(u32),
    /// Only the one with this number is a value.
    Just(u32),
    /// The first so many are values, and then come keywords with values.
    Keyed(u32),
    /// The first stands in a function's seat, and then come keywords with values.
    KeyedFunction,
    /// The second stands in a function's seat.
    ThenFunction,
    /// After the first so many come keywords with values; only these values are values.
    Values(u32),
}

/// Whether these begin with this keyword and a value.
fn begins_with(symbols: &Symbols, key: &str, items: &Items) -> bool
    ensures { result ≡ Keywords.begins_with symbols.now key.now items.now }
{
    is_named(symbols, key, first_symbol(items)) && items.count() > 1
}

/// The data after a keyword and its value, where these are written; else all.
fn behind_key<'a>(is_written: bool, items: Items<'a>) -> Items<'a>
    ensures { result ≡ Keywords.behind_key is_written items.entry }
{
    if is_written { items.skip(2) } else { items }
}

/// Which of two keywords are written, each at most once and in this order, where nothing else is.
pub fn keys_in(symbols: &Symbols, first: &str, second: &str, items: Items) -> Option<Keys>
    ensures { result ≡ Keywords.keys_in symbols.now first.now second.now items.entry }
{
    let has_first = begins_with(symbols, first, &items);
    let left = behind_key(has_first, items);
    let has_second = begins_with(symbols, second, &left);
    let left = behind_key(has_second, left);
    if left.count() == 0 {
        Some(Keys {
            first: has_first,
            second: has_second,
        })
    } else {
        None
    }
}

/// How many arguments of a service come before its keywords.
pub fn positional(service: Service) -> u32
    ensures { result ≡ Keywords.positional service }
{
    match service {
        Service::MakeMutex { .. } | Service::MakeWaitqueue { .. } => 0,
        Service::InterruptThread | Service::ConditionWait { .. } | Service::ScheduleTimer { .. } =>
            2,
        _ => 1,
    }
}

/// The first keyword of a service; the empty text, which is no name, where it has none.
pub fn first_key(service: Service) -> &'static str
    ensures { result.now ≡ Keywords.first_key service }
{
    match service {
        Service::MakeThread { .. }
        | Service::MakeMutex { .. }
        | Service::MakeWaitqueue { .. }
        | Service::MakeTimer { .. } => ":NAME",
        Service::JoinThread { .. } => ":DEFAULT",
        Service::GrabMutex { .. } => ":WAITP",
        Service::ReleaseMutex { .. } => ":IF-NOT-OWNER",
        Service::ConditionWait { .. } => ":TIMEOUT",
        Service::ScheduleTimer { .. } => ":REPEAT-INTERVAL",
        _ => "",
    }
}

/// The second keyword of a service; the empty text where it has none.
pub fn second_key(service: Service) -> &'static str
    ensures { result.now ≡ Keywords.second_key service }
{
    match service {
        Service::MakeThread { .. } => ":ARGUMENTS",
        Service::JoinThread { .. } | Service::GrabMutex { .. } => ":TIMEOUT",
        Service::MakeTimer { .. } => ":THREAD",
        Service::ScheduleTimer { .. } => ":CATCH-UP",
        _ => "",
    }
}

/// A service with the keywords that are written.
pub fn with_keys(service: Service, first: bool, second: bool) -> Service
    ensures { result ≡ Keywords.with_keys service first second }
{
    match service {
        Service::MakeThread { .. } => Service::MakeThread {
            name: first,
            arguments: second,
        },
        Service::JoinThread { .. } => Service::JoinThread {
            default: first,
            timeout: second,
        },
        Service::MakeMutex { .. } => Service::MakeMutex { name: first },
        Service::MakeWaitqueue { .. } => Service::MakeWaitqueue { name: first },
        Service::GrabMutex { .. } => Service::GrabMutex {
            waitp: first,
            timeout: second,
        },
        Service::ReleaseMutex { .. } => Service::ReleaseMutex {
            if_not_owner: first,
        },
        Service::ConditionWait { .. } => Service::ConditionWait { timeout: first },
        Service::ConditionNotify { .. } => Service::ConditionNotify { count: first },
        Service::MakeTimer { .. } => Service::MakeTimer {
            name: first,
            thread: second,
        },
        Service::ScheduleTimer { .. } => Service::ScheduleTimer {
            repeat_interval: first,
            catch_up: second,
        },
        other => other,
    }
}

/// What the arguments of a service are for.
pub fn roles_of(service: Service) -> Roles
    ensures { result ≡ Keywords.roles_of service }
{
    match service {
        Service::MakeThread { .. } | Service::MakeTimer { .. } => Roles::KeyedFunction,
        Service::InterruptThread => Roles::ThenFunction,
        Service::ConditionNotify { .. } => Roles::From(0),
        Service::MakeMutex { .. } | Service::MakeWaitqueue { .. } => Roles::Keyed(0),
        Service::ConditionWait { .. } | Service::ScheduleTimer { .. } => Roles::Keyed(2),
        _ => Roles::Keyed(1),
    }
}

/// What the argument with this number is for where keywords and values take turns, a keyword first.
fn pair_role(index: u32) -> Role
    ensures { result ≡ Keywords.pair_role index }
{
    if index % 2 == 1 {
        Role::Value
    } else {
        Role::Skipped
    }
}

/// For a value where this holds, else for no form.
fn value_if(is_value: bool) -> Role
    ensures { result ≡ Keywords.value_if is_value }
{
    if is_value { Role::Value } else { Role::Skipped }
}

/// What the argument with this number is for, from 0.
pub fn role_at(roles: Roles, index: u32) -> Role
    ensures { result ≡ Keywords.role_at roles index }
{
    match roles {
        Roles::From(first) => value_if(index >= first),
        Roles::Just(number) => value_if(index == number),
        Roles::Keyed(first) if index < first => Role::Value,
        Roles::Keyed(first) => pair_role(index - first),
        Roles::KeyedFunction if index == 0 => Role::Seat,
        Roles::KeyedFunction => pair_role(index - 1),
        Roles::ThenFunction if index == 1 => Role::Seat,
        Roles::ThenFunction => Role::Value,
        Roles::Values(first) if index < first => Role::Skipped,
        Roles::Values(first) => pair_role(index - first),
    }
}

/// One more part, where an argument has one.
fn counted(role: Role, parts: u32) -> u32
    requires { parts < 2 ^ 30 }
    ensures { result ≡ Keywords.counted role parts }
{
    match role {
        Role::Value | Role::Seat => parts + 1,
        Role::Skipped => parts,
    }
}

/// How many parts so many arguments have.
pub fn part_count(roles: Roles, count: u32) -> u32
    requires { count < 2 ^ 30 }
    ensures is { result ≡ Keywords.part_count roles 0 count }
    ensures few { result < 2 ^ 30 }
{
    let mut parts = 0;
    for index in 0..count {
        parts = counted(role_at(roles, index), parts);
    }
    parts
}
