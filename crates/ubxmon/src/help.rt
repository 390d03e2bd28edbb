// What ubxmon says of itself.
pub const HELP: &str = "ubxmon: lists the UBX frames in what came over a line

usage: ubxmon [FILE]

Reads raw bytes from FILE, or from standard input, and prints a line for each
frame that got through intact:

    place   of the frame's first byte, counted from 0
    class   two hexadecimal digits
    id      two hexadecimal digits
    length  of the payload, in bytes

and at the end how many frames were heard, how many bytes were noise, and how
many bytes at the end are held: they may begin a frame that is not whole yet.

example: ubxmon < examples/valley.bin
";
