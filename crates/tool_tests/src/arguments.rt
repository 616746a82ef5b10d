// Which command the arguments are, and which arguments programs get.
use crate::sessions::{commands_refuse, play_rows};
use std::test::Fail;

// The input and the profile exist: only the arguments are wrong.
const NO_COMMANDS: [&str; 64] = [
    "$",
    "$ rewrite",
    "$ rewrite in profile out",
    "$ rewrite in profile out out",
    "$ rewrite in profile out map more",
    "$ rewrite -x profile out map",
    "$ rewrite --steps=3 in profile out map",
    "$ -- rewrite in profile out map",
    "$ map in",
    "$ map in profile out",
    "$ map --steps=3 in profile",
    "$ lookup",
    "$ lookup in",
    "$ lookup in zz",
    "$ lookup in 0x",
    "$ lookup in 0X10078",
    "$ lookup in 00000000000010078",
    "$ lookup in 10078 more",
    "$ lookup --steps=3 in 10078",
    "$ sample 1 out",
    "$ sample 0 out map",
    "$ sample 1001 out map",
    "$ sample +1 out map",
    "$ sample 1 out out",
    "$ sample 1 out map more",
    "$ sample --steps=3 1 out map",
    "$ run",
    "$ run --",
    "$ run --steps 5",
    "$ run --steps in",
    "$ run in --steps",
    "$ run --steps -- in",
    "$ run --steps=x in",
    "$ run --steps= in",
    "$ run --steps=+5 in",
    "$ run --steps=18446744073709551616 in",
    "$ run --steps=000000000000000000005 in",
    "$ run --steps 5 --steps 6 in",
    "$ run --symbols",
    "$ run --symbols= in",
    "$ run --symbols in --symbols",
    "$ run -s in",
    "$ run --step=5 in",
    "$ run in a\0b",
    "$ record",
    "$ record in",
    "$ record in in",
    "$ record --symbols in out",
    "$ record --steps in out",
    "$ record --steps 3 --steps=4 in out",
    "$ record --steps=x in out",
    "$ repair in profile",
    "$ repair in profile in",
    "$ repair in in out",
    "$ repair in profile profile",
    "$ repair in profile out map",
    "$ repair --steps=3 in profile out",
    "$ verify in out",
    "$ verify in out map more",
    "$ verify --steps=3 in out map",
    "$ frames in",
    "$ frames in 0x",
    "$ frames in 10078 more",
    "$ frames --steps=3 in 10078",
];

const USAGE: &str = "\
# What is printed where the arguments are no command.
like exit7
- => 220 Usage usage: rewrite IN PROFILE OUT MAP, map IN PROFILE, run [--symbols] [--steps N] FILE [WORDS], \
lookup FILE ADDR, sample N OUT PROFILE, record [--steps N] FILE OUT [WORDS], repair IN PROFILE OUT, \
verify IN OUT MAP, frames FILE ADDR/";

#[test]
fn arguments_that_are_no_command(rt: HostRuntime) -> Result<(), Fail> {
    commands_refuse(&rt, rt.alloc(), &NO_COMMANDS, USAGE)
}

const COMMANDS: &str = "\
# Arguments after two hyphens are names.
like exit7
- => $ rewrite in - -- -o map | 0 Ok moved 1 functions, 4 instructions, 16 bytes; 0 hot blocks; 0 profile lines ignored/
     | bytes -o 0 7f454c46

# Options stand anywhere after `run`.
like address-added-to
- => $ run --steps 5 in | 226 OutOfSteps [out of steps after 5 steps]/
- => $ run in --steps=4 | 226 OutOfSteps [out of steps after 4 steps]/
- => $ run --steps 0 -- in | 226 OutOfSteps [out of steps after 0 steps]/
- => $ run in word --steps 00000000000000000001 | 226 OutOfSteps [out of steps after 1 steps]/
- => $ run --symbols --steps 2 in | 226 OutOfSteps [out of steps after 2 steps]/
- => $ run --steps=2 in --symbols | 226 OutOfSteps [out of steps after 2 steps]/
- => $ run in word --symbols --steps 2 | 226 OutOfSteps [out of steps after 2 steps]/
- => $ run --symbols --steps=2 -- in --symbols | 226 OutOfSteps [out of steps after 2 steps]/
- => $ run --symbols in | 227 Stuck 10080 Operate [stuck Operate at 10080 after 2 steps]/

# A program that writes five bytes of its second argument, and ends with the count of arguments: of at most 64, and of
# 65,536 bytes in all.
code .text 10078 ld a1,16(sp); addi a0,zero,1; addi a2,zero,5; addi a7,zero,64; ecall; ld a0,0(sp); exit
- => $ run in alpha | 2 Ended(2) alpha[ended 2 after 8 steps]/
- => $ run --steps 8 in alpha beta - | 4 Ended(4) alpha[ended 4 after 8 steps]/
- => $ run in --steps=8 alpha -- -- | 3 Ended(3) alpha[ended 3 after 8 steps]/
- => $ run -- in --steps=x | 2 Ended(2) --ste[ended 2 after 8 steps]/
- => $ run in *40*400 | 65 Ended(65) wwwww[ended 65 after 8 steps]/
- => $ run in *1*10000 | 2 Ended(2) wwwww[ended 2 after 8 steps]/";

#[test]
fn commands_and_options(rt: HostRuntime) -> Result<(), Fail> {
    play_rows(&rt, rt.alloc(), COMMANDS)
}

#[test]
fn too_many_arguments(rt: HostRuntime) -> Result<(), Fail> {
    let commands = ["$ run in *41*5", "$ run in *1*10001"];
    commands_refuse(&rt, rt.alloc(), &commands, USAGE)
}
