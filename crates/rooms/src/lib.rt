// Room in one of the two areas of a lent picture.
#![tactic(auto)]

ghost use Rattle.std.specs.Prelude.{◌≡◌, ◌<◌, ◌≤◌, length};
ghost use Rattle.picture.specs.Layout.{from, upto, greatest_size};
ghost use Rattle.placing.specs.Place.{Placing};
ghost use Rattle.rooms.specs.Room.{block_length, first_byte, header_byte};

use headers::Block;
use picture::Area;

// The length of a block with n bytes of room.
pub fn block_length(n: u64) -> u64
    requires { n < 17179869184 }
    ensures { result ≡ block_length n }
{
    blocks::round_up(16 + n)
}

// The byte offset of the header of the block at i.
pub fn header_byte(i: usize) -> u32
    requires { i < greatest_size }
    ensures { result ≡ header_byte i }
{
    4 * i as u32
}

// The byte offset of the first byte of room of the block at i.
pub fn first_byte(i: usize) -> u32
    requires { i < greatest_size }
    ensures { result ≡ first_byte i }
{
    header_byte(i) + 16
}

// A block of n bytes stands in the area, if it has room for it.
pub fn place_in(p: &mut [u32], a: Area, n: u64, block: Block) -> Option<usize>
    requires { upto p.old a ≤ length p.old }
    ensures { Placing p.old (from p.old a) (upto p.old a) n block.kind block.owner block.start result p.new }
{
    let base = picture::area_from(p, a);
    let e = picture::area_upto(p, a);
    placing::place(p, base, e, n, block)
}
