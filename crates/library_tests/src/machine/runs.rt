// Tests system calls against Linux's manual pages, traps, limits, pages, and faults of the source and the sink.
use crate::machine::running::{run_in_words, show};
use std::test::Fail;
use test_files::words::rows;

const CALLS: &str = "\
# A system call: a0 has a file, a1 a buffer of 16 bytes at the start of the data, a2 its size and a7 the call. Its
# result goes behind the buffer. Then write(1, data, 24), and exit(0). First read and write of files that are open for
# it and others; -9 is EBADF, and -38 ENOSYS.
flags 1
segment rw 3000 50000
writable .data 50000 2e2e2e2e2e2e2e2e2e2e2e2e2e2e2e2e2e2e2e2e2e2e2e2e
code .rest 100c0 ecall; sd a0,16(a1); addi a0,zero,1; addi a2,zero,24; addi a7,zero,64; ecall; addi a0,zero,0; exit
entry 100b0
input hello
- code .text 100b0 addi a0,zero,0; lui a1,80; addi a2,zero,8; addi a7,zero,63
  => Ended(0) 13 68656c6c6f2e2e2e2e2e2e2e2e2e2e2e0500000000000000
- code .text 100b0 addi a0,zero,0; lui a1,80; addi a2,zero,2; addi a7,zero,63
  => Ended(0) 13 68652e2e2e2e2e2e2e2e2e2e2e2e2e2e0200000000000000
- code .text 100b0 addi a0,zero,0; lui a1,80; addi a2,zero,0; addi a7,zero,63
  => Ended(0) 13 2e2e2e2e2e2e2e2e2e2e2e2e2e2e2e2e0000000000000000
- code .text 100b0 addi a0,zero,3; lui a1,80; addi a2,zero,8; addi a7,zero,63
  => Ended(0) 13 2e2e2e2e2e2e2e2e2e2e2e2e2e2e2e2ef7ffffffffffffff
- code .text 100b0 addi a0,zero,1; lui a1,80; addi a2,zero,8; addi a7,zero,63
  => Ended(0) 13 2e2e2e2e2e2e2e2e2e2e2e2e2e2e2e2ef7ffffffffffffff
- code .text 100b0 addi a0,zero,0; lui a1,80; addi a2,zero,8; addi a7,zero,64
  => Ended(0) 13 2e2e2e2e2e2e2e2e2e2e2e2e2e2e2e2ef7ffffffffffffff
- code .text 100b0 addi a0,zero,3; lui a1,80; addi a2,zero,8; addi a7,zero,64
  => Ended(0) 13 2e2e2e2e2e2e2e2e2e2e2e2e2e2e2e2ef7ffffffffffffff
- code .text 100b0 addi a0,zero,0; lui a1,80; addi a2,zero,8; addi a7,zero,80
  => Ended(0) 13 2e2e2e2e2e2e2e2e2e2e2e2e2e2e2e2edaffffffffffffff
- code .text 100b0 addi a0,zero,0; lui a1,80; addi a2,zero,8; addi a7,zero,0
  => Ended(0) 13 2e2e2e2e2e2e2e2e2e2e2e2e2e2e2e2edaffffffffffffff
- code .text 100b0 addi a0,zero,0; lui a1,80; addi a2,zero,8; addi a7,zero,214
  => Ended(0) 13 2e2e2e2e2e2e2e2e2e2e2e2e2e2e2e2e0010050000000000

# Each file that is open for writing takes the bytes, and the result is their number.
flags 1
segment rw 3000 50000
writable .data 50000 6162636465666768696a6b6c6d6e6f707172737475767778
code .rest 100c0 ecall; sd a0,16(a1); addi a0,zero,1; addi a2,zero,24; addi a7,zero,64; ecall; addi a0,zero,0; exit
entry 100b0
- code .text 100b0 addi a0,zero,1; lui a1,80; addi a2,zero,3; addi a7,zero,64
  => Ended(0) 13 6162636162636465666768696a6b6c6d6e6f700300000000000000
- code .text 100b0 addi a0,zero,2; lui a1,80; addi a2,zero,3; addi a7,zero,64
  => Ended(0) 13 6162636162636465666768696a6b6c6d6e6f700300000000000000

# A source that fails at once, and one that fails after five of eight bytes.
flags 1
segment rw 3000 50000
writable .data 50000 2e2e2e2e2e2e2e2e2e2e2e2e2e2e2e2e2e2e2e2e2e2e2e2e
code .text 100b0 addi a0,zero,0; lui a1,80; addi a2,zero,8; addi a7,zero,63
code .rest 100c0 ecall; sd a0,16(a1); addi a0,zero,1; addi a2,zero,24; addi a7,zero,64; ecall; addi a0,zero,0; exit
input hello
- fail input 1 => ReadFault 4
- fail input 2 => ReadFault 4
- fail input 3 => Ended(0) 13 68656c6c6f2e2e2e2e2e2e2e2e2e2e2e0500000000000000

# A sink that fails at once, and one that takes three of 24 bytes.
flags 1
segment rw 3000 50000
writable .data 50000 2e2e2e2e2e2e2e2e2e2e2e2e2e2e2e2e2e2e2e2e2e2e2e2e
code .text 100b0 addi a0,zero,0; lui a1,80; addi a2,zero,0; addi a7,zero,80
code .rest 100c0 ecall; sd a0,16(a1); addi a0,zero,1; addi a2,zero,24; addi a7,zero,64; ecall; addi a0,zero,0; exit
- fail out 1 => WriteFault 9
- room out 3 => WriteFault 9 2e2e2e

# The status is the low eight bits.
flags 1
segment rw 3000 50000
writable .data 50000 2e
- code .text 100b0 addi a0,zero,7; addi a7,zero,93; ecall => Ended(7) 3
- code .text 100b0 addi a0,zero,7; addi a7,zero,94; ecall => Ended(7) 3
- code .text 100b0 addi a0,zero,265; addi a7,zero,93; ecall => Ended(9) 3
- code .text 100b0 addi a0,zero,-1; addi a7,zero,93; ecall => Ended(255) 3

# The break stands at 51000, and brk(51018) raises it. The new bytes are zero, and are stored to and loaded from: the
# result at 51000 and again at 51008. Then write(1, 51000, 24).
flags 1
segment rw 3000 50000
writable .data 50000 2e
- code .text 100b0 lui a1,81; addi a0,a1,24; addi a7,zero,214; ecall; sd a0,0(a1); ld a2,0(a1); sd a2,8(a1)
  code .rest 100cc addi a0,zero,1; addi a2,zero,24; addi a7,zero,64; ecall; addi a0,zero,0; exit
  => Ended(0) 14 181005000000000018100500000000000000000000000000

# It is lowered again to 51000. Bytes that the break leaves can't be loaded, and are zero once it is raised again.
flags 1
segment rw 3000 50000
writable .data 50000 2e
code .text 100b0 lui a1,81; addi a0,a1,24; addi a7,zero,214; ecall; sd a0,0(a1); addi a0,a1,0; ecall
code .rest 100d0 ecall; ld a2,0(a1); addi a0,zero,1; addi a2,zero,8; addi a7,zero,64; ecall; addi a0,zero,0; exit
- code .again 100cc addi a0,a1,0 => Trap 100d4 Load 9
- code .again 100cc addi a0,a1,8 => Ended(0) 17 0000000000000000

# Eight bytes are stored so that four of them stand in each of two pages: one below the page of the stack pointer, which
# holds the start stack, and that page. The number is 0001234512345067, so the upper page begins with 45.
flags 1
segment rw 3000 50000
writable .data 50000 2e
- code .text 100b0 srli a0,sp,12; slli a0,a0,12; lui a1,74565; slli a2,a1,20; add a1,a1,a2; addi a1,a1,103; sd a1,-4(a0)
  code .rest 100cc ld a2,-4(a0); sub a1,a1,a2; lbu a2,0(a0); add a0,a1,a2; exit => Ended(69) 13

# The break goes from 51000 to 54000, back into eight bytes that were stored over the end of a page at 53000, and up
# again. Two of them were kept, and the others are zero.
flags 1
segment rw 3000 50000
writable .data 50000 2e
- code .text 100b0 addi a7,zero,214; lui a0,84; ecall; addi a2,zero,-1; lui a1,83; sd a2,-4(a1); addi a0,a1,-2; ecall
  code .rest 100d0 lui a0,84; ecall; ld a2,-4(a1); lui a1,16; sub a1,a1,a2; addi a2,zero,6; add a0,a1,a2; exit
  => Ended(7) 17";

const TRAPS: &str = "\
# Past the end of the code; two bytes that begin a longer form, at the end of the code; JALR x0,0(x0). A step that traps
# isn't counted. ISA manual, sections 1.4 and 1.5.
flags 1
segment rw 3000 50000
writable .data 50000 2e2e2e2e2e2e2e2e
- code .text 100b0 .word 00000013; .word 00000013 => Trap 100b8 Fetch 2
- code .text 100b0 .word 00000013; .word 00030001 => Trap 100b6 Fetch 2
- code .text 100b0 .word 00000067; .word 00000013 => Trap 0 Fetch 1

# No instructions, and EBREAK.
flags 1
segment rw 3000 50000
writable .data 50000 2e2e2e2e2e2e2e2e
- code .text 100b0 .word 00000013; .word 00000000 => Trap 100b4 Illegal 1
- code .text 100b0 .word 00000013; .word ffffffff => Trap 100b4 Illegal 1
- code .text 100b0 .word 00000013; .word 00100073 => Trap 100b4 Break 1

# LB x10,0(x0), and LB x10,0(x8) at the first byte past the data; SB x10,0(x8) of the code, and SD x10,1(x8) across the
# end of the data.
flags 1
segment rw 3000 50000
writable .data 50000 2e2e2e2e2e2e2e2e
- code .text 100b0 .word 00000503; .word 00000013 => Trap 100b0 Load 0
- code .text 100b0 .word 00050437; .word 00840503 => Trap 100b4 Load 1
- code .text 100b0 .word 00010437; .word 00a40023 => Trap 100b4 Store 1
- code .text 100b0 .word 00050437; .word 00a430a3 => Trap 100b4 Store 1

# A loop of one instruction.
flags 1
segment rw 3000 50000
writable .data 50000 2e
code .text 100b0 .word 0000006f
- limit 0 => Going 0
- limit 1 => Going 1
- limit 3e8 => Going 1000

# The target of JALR is worked out before its register is written: b8 is the low byte of the address of EBREAK.
flags 1
segment rw 3000 50000
writable .data 50000 2e
- code .text 100b0 auipc a0,0; jalr a0,12(a0); ebreak; exit => Ended(184) 4";

#[test]
fn system_calls(rt: HostRuntime) -> Result<(), Fail> {
    let alloc = rt.alloc();
    for row in &rows(alloc, CALLS)? {
        let run = run_in_words(alloc, &row.words);
        assert!(rt; run.is_ok(), "{}", row.words);
        assert_eq!(rt; show(alloc, &run?)?.as_str(), row.wanted, "{}", row.words);
    }
    Ok(())
}

#[test]
fn traps_and_limits(rt: HostRuntime) -> Result<(), Fail> {
    let alloc = rt.alloc();
    for row in &rows(alloc, TRAPS)? {
        let run = run_in_words(alloc, &row.words);
        assert!(rt; run.is_ok(), "{}", row.words);
        assert_eq!(rt; show(alloc, &run?)?.as_str(), row.wanted, "{}", row.words);
    }
    Ok(())
}
