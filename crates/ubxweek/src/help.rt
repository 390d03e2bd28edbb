// What ubxweek says of itself.
pub const HELP: &str = "ubxweek: a configuration's way from the office to the rock, told day by day

usage: ubxweek

Reads nothing, and tells four weeks. In the first three the office sends a
transaction for RAM and Flash in three frames, in the fourth two sets for RAM,
the second for BBR too. The radio passes each frame in scraps with static around
it, and a receiver on the rock hears it and answers:

    the first week's change is applied, read back by the logger and filed; a dip
    of the supply restarts the board, and the filed configuration is compared
    with the one in force
    the second week's change has an unfit rate, and neither layer changes
    the third week's change is abandoned
    in the fourth week BBR gets a rate without the port that it needs, so that
    the dip leaves the defaults in force, and the comparison finds it

Bytes, keys and words are hexadecimal, other numbers decimal; a bar stands
between the scraps that the radio brings.
";
