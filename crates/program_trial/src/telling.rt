// The most bytes that an error text has: a line's pairs of characters.
const LONGEST_TEXT: usize = program_fields::LONGEST_LINE / 2;

// Answers a line that is no trial.
pub fn write_refusal(out: &mut [u8]) -> usize {
    let marked = program_writing::write_character(out, 0, b'?');
    program_writing::write_character(out, marked, b'\n')
}

// The bytes of a text, two digits each.
fn write_bytes(text: &[u8], out: &mut [u8], used: usize) -> usize {
    let mut place = used;
    for byte in text {
        place = program_writing::write_number(out, place, 2, u32::from(*byte));
    }
    place
}

// A text, as a field.
fn write_text(text: &[u8], out: &mut [u8], used: usize) -> usize {
    if text.is_empty() {
        return program_writing::write_character(out, used, b'-');
    }
    write_bytes(text, out, used)
}

// Answers with a key and a text.
fn write_error(key: u32, text: &[u8], out: &mut [u8]) -> usize {
    let keyed = program_writing::write_number(out, 0, 8, key);
    let apart = program_writing::write_character(out, keyed, b' ');
    let told = write_text(text, out, apart);
    program_writing::write_character(out, told, b'\n')
}

// Asks for the text of a key, and answers with it.
fn tell<'a>(key: u32, system: &'a [u8], driver: &'a [u8], out: &mut [u8]) -> usize {
    let asked = words::signed_of(key);
    let answered = manager::error_key(asked, system, driver);
    let text = manager::error_text(asked, system, driver);
    write_error(words::bits_of(answered), text, out)
}

// Answers a line that asks for an error text.
pub fn answer_error(line: &[u8], out: &mut [u8]) -> usize {
    let mut system = [0; LONGEST_TEXT];
    let mut driver = [0; LONGEST_TEXT];
    match program_fields::read_asked(line, &mut system, &mut driver) {
        Some(asked) => tell(
            asked.key,
            &system[..asked.system],
            &driver[..asked.driver],
            out,
        ),
        None => write_refusal(out),
    }
}
