//! Numbers and what they stand for, both ways, from one list. A table is a macro that hands its list to one of these.

/// The number that stands for a value.
macro_rules! code_of {
    ($value:expr; $($kind:ident::$name:ident = $code:literal),*) => {
        match $value {
            $($kind::$name => $code,)*
        }
    };
}

/// The value that a number stands for; none if the list has no such number.
macro_rules! one_of {
    ($code:expr; $($kind:ident::$name:ident = $number:literal),*) => {
        match $code {
            $($number => Some($kind::$name),)*
            _ => None,
        }
    };
}

pub(crate) use code_of;
pub(crate) use one_of;
