// Sums of room and swap, computed.
ghost use Rattle.std.specs.Prelude.{◌≡◌};
ghost use Rattle.o2_world.specs.Hello.{hello_setting, hello_world};
ghost use Rattle.o2_world.specs.Run.{after};
ghost use Rattle.o2_run.specs.Room.{room, live_load, swap_load};

/// A program that writes `hello` has 25 bytes of code, 528 of data with its stack, and 9 of environment. Its first step, and
/// the seventh, which is the call of DosWrite, need code and data together, in whole paragraphs. Code is never swapped.
pub fn hello_needs_its_code_and_its_data()
    ensures first { room (hello_setting 10) (hello_world 10) ≡ 560 }
    ensures call { room (hello_setting 10) (after (hello_setting 10) (hello_world 10) 6) ≡ 560 }
    ensures live { live_load (hello_setting 10) (hello_world 10) ≡ 576 }
    ensures swap { swap_load (hello_world 10) ≡ 3 }
{}
