// The program `handles`: the structure handle of template bytes (document 01, "Template and handle"). A frame of bytes
// on standard input is answered by a frame of two: their handle.
#![tactic(auto)]

use frames::{START, next_frame, room, send_frame};
use types::structure_handle;
use words::Word;

// Sends the handle; says whether it could be written.
fn reply(template: &[u8]) -> bool {
    let mut out = [0u8; 6];
    structure_handle(template).store(&mut out, START);
    send_frame(&mut out, 2)
}

// Answers one frame; says whether to go on.
fn serve_one(template: &mut [u8]) -> bool {
    match next_frame(template) {
        Some(n) => reply(&template[..n]),
        None => false,
    }
}

// The count only lets the loop be seen to end: no input has as many frames.
fn serve(template: &mut [u8]) {
    for _ in 0..u64::MAX {
        if !serve_one(template) {
            return;
        }
    }
}

fn main() {
    let mut template = room();
    serve(&mut template);
}
