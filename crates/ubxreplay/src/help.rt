// What ubxreplay says of itself.
pub const HELP: &str = "ubxreplay: replays a script of calls to configuration receivers

usage: ubxreplay [FILE]

Reads a script from FILE, or from standard input, and prints a line for each
command that answers. Words stand apart by spaces; keys, bytes and a journal's
words are hexadecimal, other numbers decimal. Blank lines, and lines whose
first word begins with #, are skipped. A line that is no command here prints
`error line N: WHAT`, and the run goes on.

set-up:
    entry KEY KIND DEFAULT LOW HIGH   one more item of the catalogue
    need ITEM ITEM                    the first, unless it is 0, needs the second
    bbr|flash slots|absent            an empty table of slots, or no store
    bbr|flash journal COUNT [WORD...] a journal on COUNT words: these, then blanks
    bbr|flash saver ...               any of the three under a saver
    put bbr|flash KEY VALUE           prints `put ok` or the refusal's number
    remove bbr|flash KEY
    clear bbr|flash
then:
    make                              prints `make 0` or the refusal
and calls:
    take [BYTE...]                    a piece of bytes
    answer SIZE                       with a buffer of SIZE bytes
    look LAYER KEY                    0 RAM, 1 BBR, 2 Flash, 7 the defaults
    restart kept|lost                 what the battery did to BBR
anywhere:
    new                               begins another receiver
    inspect COUNT [WORD...]           what a buffer of words holds, or its fault
    words bbr|flash                   a journal's words, up to the last not blank
    read [BYTE...]                    tells what a receiver sent
    hostset SIZE LAYERS [KEY VALUE..] into a buffer of SIZE bytes; prints
                                      `host LEN BYTE...` or `host refused N`
    hostdel SIZE LAYERS [KEY...]
    hostget SIZE LAYER POSITION [KEY...]
    hostbegin set|del SIZE LAYERS ... begins a transaction
    hostadd SIZE ...                  adds to it
    hostapply, hostabandon            end it

example:
    printf '%s\\n' 'entry 20510001 0 65 8 119' make 'look 0 20510001' | ubxreplay
prints
    make 0
    look 65
";
