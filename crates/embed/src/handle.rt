// What C has of a board: its pointer, and with it the board itself. `Global` takes no bytes, so that in C a handle is one pointer.
ghost use Rattle.std.specs.Prelude.{◌≡◌};
ghost use Rattle.embed.specs.declared.board.Board.{Board};
ghost use Rattle.embed.specs.Handles.{handle_owns, board_coded};

use crate::board::Board;
use crate::parts::Parts;
use std::alloc::Global;
use std::marker::Model;

// kept: the pointer is one to nothing in particular, since no pointer to a struct that holds a Vec may cross to C
#[repr(C)]
pub struct Handle {
    ptr: *mut (),
    alloc: Global,
    pub ghost board: { Board } by { board_coded },
}

impl Model for Handle {
    ghost also_owns = { λ h. handle_owns h.alloc h.ptr h.board };
}

impl Handle {
    fn into_parts(self) -> Parts<Board, Global>
        ensures { result.value ≡ self.board }
    {
        let Handle { ptr, alloc } = self;
        Parts {
            ptr: ptr as *mut Board,
            alloc,
        }
    }

    // The board, boxed again.
    pub fn into_box(self) -> Box<Board, Global>
        ensures { result.value ≡ self.board }
    {
        self.into_parts().into_box()
    }
}

impl Parts<Board, Global> {
    // The pointer alone; the board is let go of, and C has it.
    pub fn address(self) -> *mut ()
        ensures { result ≡ self.ptr }
    {
        let Parts { ptr, alloc: _ } = self;
        ptr as *mut ()
    }
}
