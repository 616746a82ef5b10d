// Tests the byte machine: results of instructions against qemu, and system calls, faults and traps against Linux and
// the ISA manual.

mod instructions;
mod results;
mod running;
mod runs;
