use crate::Answer;

// The number of a pick, as a field.
fn write_pick(number: u32, out: &mut [u8], used: usize) -> usize {
    let start = program_writing::write_character(out, used, b' ');
    program_writing::write_number(out, start, 8, number)
}

// The registers, as a field.
fn write_registers(registers: &[u32], out: &mut [u8], used: usize) -> usize {
    let start = program_writing::write_character(out, used, b' ');
    if registers.is_empty() {
        return program_writing::write_character(out, start, b'-');
    }
    program_writing::write_words(out, start, registers)
}

// One change: what stands before it, its index and what is there now.
fn write_change(mark: u8, index: usize, longword: u32, out: &mut [u8], used: usize) -> usize {
    let marked = program_writing::write_character(out, used, mark);
    let indexed = program_writing::write_number(out, marked, 4, (index % 65536) as u32);
    let equated = program_writing::write_character(out, indexed, b'=');
    program_writing::write_number(out, equated, 8, longword)
}

// The longwords that changed, as a field.
fn write_changes(p: &[u32], before: &[u32], out: &mut [u8], used: usize) -> usize {
    let mut place = used;
    let mut mark = b' ';
    for (index, (longword, was)) in p.iter().zip(before).enumerate() {
        if longword != was {
            place = write_change(mark, index, *longword, out, place);
            mark = b',';
        }
    }
    if mark == b',' {
        return place;
    }
    let start = program_writing::write_character(out, place, b' ');
    program_writing::write_character(out, start, b'-')
}

// The key, the number of a pick and the registers.
fn write_head(answer: Answer, registers: &[u32], out: &mut [u8]) -> usize {
    let keyed = program_writing::write_number(out, 0, 8, answer.key);
    let picked = match answer.number {
        Some(number) => write_pick(number, out, keyed),
        None => keyed,
    };
    write_registers(registers, out, picked)
}

// Answers a trial.
pub fn write_answer(
    p: &[u32],
    before: &[u32],
    answer: Answer,
    registers: &[u32],
    out: &mut [u8],
) -> usize {
    let listed = write_head(answer, registers, out);
    let changed = write_changes(p, before, out, listed);
    program_writing::write_character(out, changed, b'\n')
}
