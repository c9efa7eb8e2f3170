// The laws of the machine on which those of lines stand, gathered once.
ghost use Rattle.rv_emit.specs.MachineLaws.{MachineLaws};

use rv_steps::{access_laws, constant_laws, frame_laws, machine_laws, run_laws, word_laws};

/// What the laws of lines take from those of the machine. The function does nothing.
pub(crate) fn machine_is_known()
    ensures { MachineLaws }
{
    machine_laws::lines_take_steps();
    machine_laws::registers_are_kept();
    machine_laws::memory_is_kept();
    machine_laws::bytes_are_kept();
    access_laws::runs_lead();
    run_laws::pieces_stand();
    word_laws::area_words_are_set();
    word_laws::words_are_moved();
    constant_laws::numbers_wrap();
    constant_laws::addresses_have_offsets();
    constant_laws::pointers_move();
    constant_laws::constants_are_set();
    frame_laws::registers_agree();
    frame_laws::free_lines_keep();
}
