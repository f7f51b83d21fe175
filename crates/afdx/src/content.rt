//! Access to the content of handles, for the calls. Each macro borrows the content of its handle. No `&` to a value
//! that owns memory can be taken from C, so each takes its handles by `&mut`; the handles that `afdx.h` declares with
//! `const` stay unwritten.

// The answer of `$answer` over the place of the end system in a handle, and the boxes beside it. Otherwise
// `WRONG_HANDLE` if it holds a port, and `NOT_HELD` if it holds nothing.
macro_rules! at_end {
    ($handle:expr, $inside:ident, $boxes:ident => $answer:expr) => {{
        if $handle.is_empty() {
            return NOT_HELD;
        }
        match $handle.kept.get_mut() {
            Home::EndSystem($inside, $boxes) => $answer,
            Home::Port(_) => WRONG_HANDLE,
            Home::Nothing => NOT_HELD,
        }
    }};
}

// The answer of `$answer` over the end system in a handle, otherwise `WRONG_HANDLE` or `NOT_HELD` as `at_end!` answers.
macro_rules! with_end {
    ($handle:expr, $end:ident => $answer:expr) => {
        at_end!($handle, inside, _boxes => match &mut **inside {
            Some($end) => $answer,
            None => NOT_HELD,
        })
    };
}

// The answer of `$answer` over the port in a handle. Otherwise `WRONG_HANDLE` if it holds an end system, and
// `NOT_HELD` if it holds nothing.
macro_rules! with_port {
    ($handle:expr, $port:ident => $answer:expr) => {{
        if $handle.is_empty() {
            return NOT_HELD;
        }
        match $handle.kept.get_mut() {
            Home::Port(own) => {
                let $port = &mut own.port;
                $answer
            }
            Home::EndSystem(inside, _boxes) if inside.is_some() => WRONG_HANDLE,
            _ => NOT_HELD,
        }
    }};
}

pub(crate) use at_end;
pub(crate) use with_end;
pub(crate) use with_port;
