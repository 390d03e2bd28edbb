// What ubxlist says of itself.
pub const HELP: &str =
    "ubxlist: lists what a receiver answers to the frames in what came over a line

usage: ubxlist [FILE]

Reads raw bytes from FILE, or from standard input. A receiver with the bench
catalogue (seven items; item 0 needs item 1), an empty battery memory and no
Flash takes them, and a line is printed for each frame that it tells:

    place    of the frame's first byte, counted from 0
    class    two hexadecimal digits
    id       two hexadecimal digits
    verdict  ack, nak, or out for a frame outside the configuration class
    number   of the refusal, 0 for none

and at the end how many bytes were noise, and how many are held: they may begin
a frame that is not whole yet.

example: ubxlist < examples/bench.bin
";
