// The listing of a table: `L` name, and how many bytes the output has.
use crate::calling::{UNTOUCHED, is_untouched, write_name};
use crate::fields::number;
use crate::printing::write;
use listing::list;
use refusal::Refusal;
use relay::Held;
use slot::fresh_slot;

// The entry over the table, or where the setting says 63 slots, over a fresh one of so many.
fn listed(held: &Held, slots: usize, output: &mut [u8]) -> Result<usize, Refusal> {
    let clock = held.bookkeeping.clock;
    if slots == 64 {
        return list(&held.slots, clock, output);
    }
    list(&[fresh_slot(); 63], clock, output)
}

// How long the listing is, and its lines.
fn write_lines(rt: &impl Print, output: &[u8], len: usize) {
    let _ = print!(rt; " {len} bytes\n");
    if let Some(lines) = output.get(..len) {
        write(rt, lines);
    }
    if !is_untouched(output, len) {
        write(rt, b"the rest of the output has changed\n");
    }
}

pub(crate) fn show(rt: &impl Print, held: &Held, slots: usize, line: &[u8]) {
    let mut output = [UNTOUCHED; 4096];
    let room = output.len().min(number(line, 2) as usize);
    let listed = listed(held, slots, &mut output[..room]);
    write_name(rt, line);
    match listed {
        Ok(len) => write_lines(rt, &output, len),
        Err(refusal) => {
            let _ = print!(rt; " R {}\n", refusal.number());
        }
    }
}
