// What include/pommerzil.h says beside each answer: which numbers are returned, how much room a book needs, and that what is handed out is taken.
#![tactic(auto)]

ghost use Rattle.header.specs.Claims.{HandedOutIsTaken};
ghost use Rattle.header.specs.Header.{RunNumbers, ReadNumbers, WriteNumbers, RoomForEvery};

pub fn claims()
    ensures run_numbers { RunNumbers }
    ensures read_numbers { ReadNumbers }
    ensures write_numbers { WriteNumbers }
    ensures room_for_every { RoomForEvery }
    ensures handed_out_is_taken { HandedOutIsTaken }
{}
