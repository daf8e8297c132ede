// How long the room for a line is: one character more than a trial may have.
pub const LINE: usize = 300_001;

// How long the room for an answer is: a key, a blank, the longest error text in digits, and a line feed.
pub const ANSWER: usize = 300_010;

// How long the room for a picture is: some more longwords than the greatest has.
pub const PICTURE: usize = 16_400;

// How long the room for a name is: more bytes than a call field may have.
pub const NAME: usize = 4_096;

// How long the room for registers is: twice as many as a call takes.
pub const REGISTERS: usize = 16;
