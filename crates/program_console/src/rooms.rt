// Room for what is read, of zeros. The contracts give only the length, which lending a room as a slice needs.
ghost use Rattle.std.specs.Prelude.{◌≡◌, length};

// Room for a word of a line.
pub fn buffer() -> [u8; 4096]
    ensures { 4096 ≡ length result }
{
    [0; 4096]
}

// Room for much input, or for a long word.
pub fn large_buffer() -> [u8; 65536]
    ensures { 65536 ≡ length result }
{
    [0; 65536]
}
