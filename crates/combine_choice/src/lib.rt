//! A choice of two parsers, one of several by kind, and the macros of both.
#![tactic(auto)]

pub mod or;
pub mod variants;

/// Chooses among any number of parsers, in order, each of which may have a type of its own.
///
/// It is `or` of the first and of the choice of the later ones.
#[macro_export]
macro_rules! choice {
    ($first:expr $(,)?) => { $first };
    ($first:expr, $($later:expr),+ $(,)?) => { $crate::or::or($first, $crate::choice!($($later),+)) };
}

/// Matches a value, and is the parser of the first arm that fits, as one type: `Either` of the first arm's parser and of
/// one of the later ones.
///
/// All arms have parsers of one output. `Dispatch3` to `Dispatch8` name the type where three to eight arms are there.
///
/// # Examples
///
/// ```
/// fn number(input: &[u8]) -> Result<(u32, &[u8]), UnexpectedParse> {
///     let of_kind = |kind: u8| dispatch!(kind;
///         1 => map(any(), |byte: u8| u32::from(byte)),
///         2 => map(be_u16(), |number: u16| u32::from(number)),
///         _ => be_u32(),
///     );
///     then(any(), of_kind).parse(input)
/// }
/// ```
///
/// On `b"\x02\x01\0;"` it returns `(256, b";")`, and on `b"\x04\0\0\x01\0;"` too.
#[macro_export]
macro_rules! dispatch {
    ($value:expr; $($pattern:pat $(if $guard:expr)? => $parser:expr),+ $(,)?) => {
        $crate::dispatch_arms!($value; []; []; $($pattern $(if $guard)? => $parser,)+)
    };
}

/// Gathers the arms of `dispatch!`: those that are made, a `right` for each of them, and those that are left.
#[macro_export]
macro_rules! dispatch_arms {
    ($value:expr; [$($made:tt)*]; [$($right:ident)*]; $pattern:pat $(if $guard:expr)? => $parser:expr,) => {
        match $value {
            $($made)*
            $pattern $(if $guard)? => $crate::dispatched!($($right)*; $parser),
        }
    };
    ($value:expr; [$($made:tt)*]; [$($right:ident)*]; $pattern:pat $(if $guard:expr)? => $parser:expr, $($later:tt)+) => {
        $crate::dispatch_arms!(
            $value;
            [
                $($made)*
                $pattern $(if $guard)? => $crate::dispatched!($($right)*; $crate::variants::Either::Left($parser)),
            ];
            [$($right)* right];
            $($later)+
        )
    };
}

/// Puts a parser of `dispatch!` into as many `Either::Right` as it has arms before it.
#[macro_export]
macro_rules! dispatched {
    (; $parser:expr) => { $parser };
    ($right:ident $($later:ident)*; $parser:expr) => {
        $crate::variants::Either::Right($crate::dispatched!($($later)*; $parser))
    };
}
