//! A command is carried out as the program does it, over the system's files.

use crate::calls::{Call, first_call, then_call};
use crate::row::Row;
use crate::told::Told;
use b67_program::serve;
use std::io;
use std::process::ExitCode;

/// How many bytes a printer takes.
pub const ROOM: usize = 40_000_000;

// The number that a process ends with.
fn number_of(code: ExitCode) -> u8 {
    for number in 0..255u8 {
        if ExitCode::from(number) == code {
            return number;
        }
    }
    255
}

/// Serves a call.
pub fn serve_call(rt: &HostRuntime, call: Call<'_>) -> io::Result<Told> {
    let Call {
        words,
        mut tape,
        mut paper,
    } = call;
    let mut devices = rt.clone()?;
    let code = serve(
        rt.alloc(),
        words.as_slice(),
        &mut devices,
        &mut tape,
        &mut paper,
    );
    let status = number_of(code);
    Ok(Told {
        paper,
        status,
        first_status: status,
        made: None,
        calls: None,
    })
}

fn serve_then(rt: &HostRuntime, row: Row<'_>, first: &Told) -> io::Result<Told> {
    let then = then_call(rt.alloc(), row, first.paper.bytes(), ROOM)?;
    let mut told = serve_call(rt, then)?;
    told.first_status = first.status;
    Ok(told)
}

/// Serves a row's words, and those of its second command on what is printed.
pub fn serve_row(rt: &HostRuntime, row: Row<'_>, piece: usize) -> io::Result<Told> {
    let first = serve_call(rt, first_call(rt.alloc(), row, piece, ROOM)?)?;
    if row.has("then") {
        return serve_then(rt, row, &first);
    }
    Ok(first)
}
