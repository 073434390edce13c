// The outputs, as text.
ghost use Rattle.lines.specs.Gathering.{Gathered};
ghost use Rattle.observed.specs.Outputs.{bits_text, outputs_text};

use lines::gathering::gather_bit;

fn gather_bits(line: &mut [u8], n: usize, bits: &[bool]) -> usize
    ensures { Gathered line.old n (bits_text bits.now) line.new result }
{
    let mut next = n.min(line.len());
    for on in bits {
        next = gather_bit(line, next, *on);
    }
    next
}

// O0 to O3, F0 to F7, FC and CU; the record has FC before F0.
pub fn gather_outputs(line: &mut [u8], n: usize, outputs: [bool; 14]) -> usize
    ensures { Gathered line.old n (outputs_text outputs) line.new result }
{
    let a = gather_bits(line, n, &outputs[..4]);
    let b = gather_bits(line, a, &outputs[5..13]);
    let c = gather_bits(line, b, &outputs[4..5]);
    gather_bits(line, c, &outputs[13..])
}
