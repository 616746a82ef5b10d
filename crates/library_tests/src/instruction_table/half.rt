// Two-byte instructions and their meanings, which checks/instruction_table.py takes from GNU binutils.

/// A line is an instruction in hexadecimal and its meaning: an `Inst`, or `none`.
pub const HALF: &str = "\
0000 none
1ffc Addi { rd: 15, rs1: 2, imm: 1020 }
0004 none
0008 none
0010 none
0020 Addi { rd: 8, rs1: 2, imm: 8 }
0040 Addi { rd: 8, rs1: 2, imm: 4 }
0080 Addi { rd: 8, rs1: 2, imm: 64 }
0100 Addi { rd: 8, rs1: 2, imm: 128 }
0200 Addi { rd: 8, rs1: 2, imm: 256 }
0400 Addi { rd: 8, rs1: 2, imm: 512 }
0800 Addi { rd: 8, rs1: 2, imm: 16 }
1000 Addi { rd: 8, rs1: 2, imm: 32 }
03e8 Addi { rd: 10, rs1: 2, imm: 460 }
1498 Addi { rd: 14, rs1: 2, imm: 608 }
055c Addi { rd: 15, rs1: 2, imm: 644 }
0c9c Addi { rd: 15, rs1: 2, imm: 592 }
156c Addi { rd: 11, rs1: 2, imm: 684 }
2000 none
3ffc none
2004 none
2008 none
2010 none
2020 none
2040 none
2080 none
2100 none
2200 none
2400 none
2800 none
3000 none
24e8 none
2770 none
2404 none
2c54 none
34f0 none
4000 Lw { rd: 8, rs1: 8, imm: 0 }
5ffc Lw { rd: 15, rs1: 15, imm: 124 }
4004 Lw { rd: 9, rs1: 8, imm: 0 }
4008 Lw { rd: 10, rs1: 8, imm: 0 }
4010 Lw { rd: 12, rs1: 8, imm: 0 }
4020 Lw { rd: 8, rs1: 8, imm: 64 }
4040 Lw { rd: 8, rs1: 8, imm: 4 }
4080 Lw { rd: 8, rs1: 9, imm: 0 }
4100 Lw { rd: 8, rs1: 10, imm: 0 }
4200 Lw { rd: 8, rs1: 12, imm: 0 }
4400 Lw { rd: 8, rs1: 8, imm: 8 }
4800 Lw { rd: 8, rs1: 8, imm: 16 }
5000 Lw { rd: 8, rs1: 8, imm: 32 }
5f04 Lw { rd: 9, rs1: 14, imm: 56 }
4680 Lw { rd: 8, rs1: 13, imm: 8 }
5c4c Lw { rd: 11, rs1: 8, imm: 60 }
4cf0 Lw { rd: 12, rs1: 9, imm: 92 }
5c08 Lw { rd: 10, rs1: 8, imm: 56 }
6000 Ld { rd: 8, rs1: 8, imm: 0 }
7ffc Ld { rd: 15, rs1: 15, imm: 248 }
6004 Ld { rd: 9, rs1: 8, imm: 0 }
6008 Ld { rd: 10, rs1: 8, imm: 0 }
6010 Ld { rd: 12, rs1: 8, imm: 0 }
6020 Ld { rd: 8, rs1: 8, imm: 64 }
6040 Ld { rd: 8, rs1: 8, imm: 128 }
6080 Ld { rd: 8, rs1: 9, imm: 0 }
6100 Ld { rd: 8, rs1: 10, imm: 0 }
6200 Ld { rd: 8, rs1: 12, imm: 0 }
6400 Ld { rd: 8, rs1: 8, imm: 8 }
6800 Ld { rd: 8, rs1: 8, imm: 16 }
7000 Ld { rd: 8, rs1: 8, imm: 32 }
79e8 Ld { rd: 10, rs1: 11, imm: 240 }
784c Ld { rd: 11, rs1: 8, imm: 176 }
6a60 Ld { rd: 8, rs1: 12, imm: 208 }
7cc8 Ld { rd: 10, rs1: 9, imm: 184 }
8000 none
9ffc none
8004 none
8008 none
8010 none
8020 none
8040 none
8080 none
8100 none
8200 none
8400 none
8800 none
9000 none
947c none
8a08 none
8a74 none
808c none
8878 none
a000 none
bffc none
a004 none
a008 none
a010 none
a020 none
a040 none
a080 none
a100 none
a200 none
a400 none
a800 none
b000 none
ada0 none
b4f4 none
bcb8 none
b5ec none
a108 none
c000 Sw { rs1: 8, rs2: 8, imm: 0 }
dffc Sw { rs1: 15, rs2: 15, imm: 124 }
c004 Sw { rs1: 8, rs2: 9, imm: 0 }
c008 Sw { rs1: 8, rs2: 10, imm: 0 }
c010 Sw { rs1: 8, rs2: 12, imm: 0 }
c020 Sw { rs1: 8, rs2: 8, imm: 64 }
c040 Sw { rs1: 8, rs2: 8, imm: 4 }
c080 Sw { rs1: 9, rs2: 8, imm: 0 }
c100 Sw { rs1: 10, rs2: 8, imm: 0 }
c200 Sw { rs1: 12, rs2: 8, imm: 0 }
c400 Sw { rs1: 8, rs2: 8, imm: 8 }
c800 Sw { rs1: 8, rs2: 8, imm: 16 }
d000 Sw { rs1: 8, rs2: 8, imm: 32 }
d760 Sw { rs1: 14, rs2: 8, imm: 108 }
c248 Sw { rs1: 12, rs2: 10, imm: 4 }
c32c Sw { rs1: 14, rs2: 11, imm: 64 }
db0c Sw { rs1: 14, rs2: 11, imm: 48 }
cfc8 Sw { rs1: 15, rs2: 10, imm: 28 }
e000 Sd { rs1: 8, rs2: 8, imm: 0 }
fffc Sd { rs1: 15, rs2: 15, imm: 248 }
e004 Sd { rs1: 8, rs2: 9, imm: 0 }
e008 Sd { rs1: 8, rs2: 10, imm: 0 }
e010 Sd { rs1: 8, rs2: 12, imm: 0 }
e020 Sd { rs1: 8, rs2: 8, imm: 64 }
e040 Sd { rs1: 8, rs2: 8, imm: 128 }
e080 Sd { rs1: 9, rs2: 8, imm: 0 }
e100 Sd { rs1: 10, rs2: 8, imm: 0 }
e200 Sd { rs1: 12, rs2: 8, imm: 0 }
e400 Sd { rs1: 8, rs2: 8, imm: 8 }
e800 Sd { rs1: 8, rs2: 8, imm: 16 }
f000 Sd { rs1: 8, rs2: 8, imm: 32 }
f304 Sd { rs1: 14, rs2: 9, imm: 32 }
e638 Sd { rs1: 12, rs2: 14, imm: 72 }
e630 Sd { rs1: 12, rs2: 12, imm: 72 }
eb38 Sd { rs1: 14, rs2: 14, imm: 80 }
e00c Sd { rs1: 8, rs2: 11, imm: 0 }
0001 Addi { rd: 0, rs1: 0, imm: 0 }
1ffd Addi { rd: 31, rs1: 31, imm: -1 }
0005 Addi { rd: 0, rs1: 0, imm: 1 }
0009 Addi { rd: 0, rs1: 0, imm: 2 }
0011 Addi { rd: 0, rs1: 0, imm: 4 }
0021 Addi { rd: 0, rs1: 0, imm: 8 }
0041 Addi { rd: 0, rs1: 0, imm: 16 }
0081 Addi { rd: 1, rs1: 1, imm: 0 }
0101 Addi { rd: 2, rs1: 2, imm: 0 }
0201 Addi { rd: 4, rs1: 4, imm: 0 }
0401 Addi { rd: 8, rs1: 8, imm: 0 }
0801 Addi { rd: 16, rs1: 16, imm: 0 }
1001 Addi { rd: 0, rs1: 0, imm: -32 }
1245 Addi { rd: 4, rs1: 4, imm: -15 }
0b4d Addi { rd: 22, rs1: 22, imm: 19 }
0049 Addi { rd: 0, rs1: 0, imm: 18 }
0ad5 Addi { rd: 21, rs1: 21, imm: 21 }
0f9d Addi { rd: 31, rs1: 31, imm: 7 }
2001 none
3ffd Addiw { rd: 31, rs1: 31, imm: -1 }
2005 none
2009 none
2011 none
2021 none
2041 none
2081 Addiw { rd: 1, rs1: 1, imm: 0 }
2101 Addiw { rd: 2, rs1: 2, imm: 0 }
2201 Addiw { rd: 4, rs1: 4, imm: 0 }
2401 Addiw { rd: 8, rs1: 8, imm: 0 }
2801 Addiw { rd: 16, rs1: 16, imm: 0 }
3001 none
2fb1 Addiw { rd: 31, rs1: 31, imm: 12 }
31a9 Addiw { rd: 3, rs1: 3, imm: -22 }
3f21 Addiw { rd: 30, rs1: 30, imm: -24 }
3229 Addiw { rd: 4, rs1: 4, imm: -22 }
3b45 Addiw { rd: 22, rs1: 22, imm: -15 }
4001 Addi { rd: 0, rs1: 0, imm: 0 }
5ffd Addi { rd: 31, rs1: 0, imm: -1 }
4005 Addi { rd: 0, rs1: 0, imm: 1 }
4009 Addi { rd: 0, rs1: 0, imm: 2 }
4011 Addi { rd: 0, rs1: 0, imm: 4 }
4021 Addi { rd: 0, rs1: 0, imm: 8 }
4041 Addi { rd: 0, rs1: 0, imm: 16 }
4081 Addi { rd: 1, rs1: 0, imm: 0 }
4101 Addi { rd: 2, rs1: 0, imm: 0 }
4201 Addi { rd: 4, rs1: 0, imm: 0 }
4401 Addi { rd: 8, rs1: 0, imm: 0 }
4801 Addi { rd: 16, rs1: 0, imm: 0 }
5001 Addi { rd: 0, rs1: 0, imm: -32 }
55f5 Addi { rd: 11, rs1: 0, imm: -3 }
4551 Addi { rd: 10, rs1: 0, imm: 20 }
5e65 Addi { rd: 28, rs1: 0, imm: -7 }
4415 Addi { rd: 8, rs1: 0, imm: 5 }
4865 Addi { rd: 16, rs1: 0, imm: 25 }
6001 none
7ffd Lui { rd: 31, imm: -1 }
6005 Lui { rd: 0, imm: 1 }
6009 Lui { rd: 0, imm: 2 }
6011 Lui { rd: 0, imm: 4 }
6021 Lui { rd: 0, imm: 8 }
6041 Lui { rd: 0, imm: 16 }
6081 none
6101 none
6201 none
6401 none
6801 none
7001 Lui { rd: 0, imm: -32 }
65e9 Lui { rd: 11, imm: 26 }
79dd Lui { rd: 19, imm: -9 }
7a25 Lui { rd: 20, imm: -23 }
62f5 Lui { rd: 5, imm: 29 }
7369 Lui { rd: 6, imm: -6 }
8001 Srli { rd: 8, rs1: 8, imm: 0 }
9ffd none
8005 Srli { rd: 8, rs1: 8, imm: 1 }
8009 Srli { rd: 8, rs1: 8, imm: 2 }
8011 Srli { rd: 8, rs1: 8, imm: 4 }
8021 Srli { rd: 8, rs1: 8, imm: 8 }
8041 Srli { rd: 8, rs1: 8, imm: 16 }
8081 Srli { rd: 9, rs1: 9, imm: 0 }
8101 Srli { rd: 10, rs1: 10, imm: 0 }
8201 Srli { rd: 12, rs1: 12, imm: 0 }
8401 Srai { rd: 8, rs1: 8, imm: 0 }
8801 Andi { rd: 8, rs1: 8, imm: 0 }
9001 Srli { rd: 8, rs1: 8, imm: 32 }
9cc1 none
8449 Srai { rd: 8, rs1: 8, imm: 18 }
8741 Srai { rd: 14, rs1: 14, imm: 16 }
8a19 Andi { rd: 12, rs1: 12, imm: 6 }
9f59 none
a001 Jal { rd: 0, imm: 0 }
bffd Jal { rd: 0, imm: -2 }
a005 Jal { rd: 0, imm: 32 }
a009 Jal { rd: 0, imm: 2 }
a011 Jal { rd: 0, imm: 4 }
a021 Jal { rd: 0, imm: 8 }
a041 Jal { rd: 0, imm: 128 }
a081 Jal { rd: 0, imm: 64 }
a101 Jal { rd: 0, imm: 1024 }
a201 Jal { rd: 0, imm: 256 }
a401 Jal { rd: 0, imm: 512 }
a801 Jal { rd: 0, imm: 16 }
b001 Jal { rd: 0, imm: -2048 }
a719 Jal { rd: 0, imm: 1798 }
aced Jal { rd: 0, imm: 762 }
b839 Jal { rd: 0, imm: -2018 }
bf89 Jal { rd: 0, imm: -174 }
ac25 Jal { rd: 0, imm: 568 }
c001 Beq { rs1: 8, rs2: 0, imm: 0 }
dffd Beq { rs1: 15, rs2: 0, imm: -2 }
c005 Beq { rs1: 8, rs2: 0, imm: 32 }
c009 Beq { rs1: 8, rs2: 0, imm: 2 }
c011 Beq { rs1: 8, rs2: 0, imm: 4 }
c021 Beq { rs1: 8, rs2: 0, imm: 64 }
c041 Beq { rs1: 8, rs2: 0, imm: 128 }
c081 Beq { rs1: 9, rs2: 0, imm: 0 }
c101 Beq { rs1: 10, rs2: 0, imm: 0 }
c201 Beq { rs1: 12, rs2: 0, imm: 0 }
c401 Beq { rs1: 8, rs2: 0, imm: 8 }
c801 Beq { rs1: 8, rs2: 0, imm: 16 }
d001 Beq { rs1: 8, rs2: 0, imm: -256 }
d53d Beq { rs1: 10, rs2: 0, imm: -146 }
d425 Beq { rs1: 8, rs2: 0, imm: -152 }
df49 Beq { rs1: 14, rs2: 0, imm: -102 }
d015 Beq { rs1: 8, rs2: 0, imm: -220 }
ccd1 Beq { rs1: 9, rs2: 0, imm: 156 }
e001 Bne { rs1: 8, rs2: 0, imm: 0 }
fffd Bne { rs1: 15, rs2: 0, imm: -2 }
e005 Bne { rs1: 8, rs2: 0, imm: 32 }
e009 Bne { rs1: 8, rs2: 0, imm: 2 }
e011 Bne { rs1: 8, rs2: 0, imm: 4 }
e021 Bne { rs1: 8, rs2: 0, imm: 64 }
e041 Bne { rs1: 8, rs2: 0, imm: 128 }
e081 Bne { rs1: 9, rs2: 0, imm: 0 }
e101 Bne { rs1: 10, rs2: 0, imm: 0 }
e201 Bne { rs1: 12, rs2: 0, imm: 0 }
e401 Bne { rs1: 8, rs2: 0, imm: 8 }
e801 Bne { rs1: 8, rs2: 0, imm: 16 }
f001 Bne { rs1: 8, rs2: 0, imm: -256 }
ffc9 Bne { rs1: 15, rs2: 0, imm: -102 }
e141 Bne { rs1: 10, rs2: 0, imm: 128 }
e46d Bne { rs1: 8, rs2: 0, imm: 234 }
f64d Bne { rs1: 12, rs2: 0, imm: -86 }
f9c9 Bne { rs1: 11, rs2: 0, imm: -110 }
0002 Slli { rd: 0, rs1: 0, imm: 0 }
1ffe Slli { rd: 31, rs1: 31, imm: 63 }
0006 Slli { rd: 0, rs1: 0, imm: 1 }
000a Slli { rd: 0, rs1: 0, imm: 2 }
0012 Slli { rd: 0, rs1: 0, imm: 4 }
0022 Slli { rd: 0, rs1: 0, imm: 8 }
0042 Slli { rd: 0, rs1: 0, imm: 16 }
0082 Slli { rd: 1, rs1: 1, imm: 0 }
0102 Slli { rd: 2, rs1: 2, imm: 0 }
0202 Slli { rd: 4, rs1: 4, imm: 0 }
0402 Slli { rd: 8, rs1: 8, imm: 0 }
0802 Slli { rd: 16, rs1: 16, imm: 0 }
1002 Slli { rd: 0, rs1: 0, imm: 32 }
157e Slli { rd: 10, rs1: 10, imm: 63 }
0bae Slli { rd: 23, rs1: 23, imm: 11 }
01ee Slli { rd: 3, rs1: 3, imm: 27 }
0cbe Slli { rd: 25, rs1: 25, imm: 15 }
1c26 Slli { rd: 24, rs1: 24, imm: 41 }
2002 none
3ffe none
2006 none
200a none
2012 none
2022 none
2042 none
2082 none
2102 none
2202 none
2402 none
2802 none
3002 none
220e none
25b2 none
25a2 none
3eda none
2c4e none
4002 none
5ffe Lw { rd: 31, rs1: 2, imm: 252 }
4006 none
400a none
4012 none
4022 none
4042 none
4082 Lw { rd: 1, rs1: 2, imm: 0 }
4102 Lw { rd: 2, rs1: 2, imm: 0 }
4202 Lw { rd: 4, rs1: 2, imm: 0 }
4402 Lw { rd: 8, rs1: 2, imm: 0 }
4802 Lw { rd: 16, rs1: 2, imm: 0 }
5002 none
4f8a Lw { rd: 31, rs1: 2, imm: 128 }
4c96 Lw { rd: 25, rs1: 2, imm: 68 }
4f16 Lw { rd: 30, rs1: 2, imm: 68 }
4a5e Lw { rd: 20, rs1: 2, imm: 212 }
5c6e Lw { rd: 24, rs1: 2, imm: 248 }
6002 none
7ffe Ld { rd: 31, rs1: 2, imm: 504 }
6006 none
600a none
6012 none
6022 none
6042 none
6082 Ld { rd: 1, rs1: 2, imm: 0 }
6102 Ld { rd: 2, rs1: 2, imm: 0 }
6202 Ld { rd: 4, rs1: 2, imm: 0 }
6402 Ld { rd: 8, rs1: 2, imm: 0 }
6802 Ld { rd: 16, rs1: 2, imm: 0 }
7002 none
6322 Ld { rd: 6, rs1: 2, imm: 8 }
7afe Ld { rd: 21, rs1: 2, imm: 504 }
678a Ld { rd: 15, rs1: 2, imm: 128 }
66a6 Ld { rd: 13, rs1: 2, imm: 72 }
6b5a Ld { rd: 22, rs1: 2, imm: 400 }
8002 none
9ffe Add { rd: 31, rs1: 31, rs2: 31 }
8006 Add { rd: 0, rs1: 0, rs2: 1 }
800a Add { rd: 0, rs1: 0, rs2: 2 }
8012 Add { rd: 0, rs1: 0, rs2: 4 }
8022 Add { rd: 0, rs1: 0, rs2: 8 }
8042 Add { rd: 0, rs1: 0, rs2: 16 }
8082 Jalr { rd: 0, rs1: 1, imm: 0 }
8102 Jalr { rd: 0, rs1: 2, imm: 0 }
8202 Jalr { rd: 0, rs1: 4, imm: 0 }
8402 Jalr { rd: 0, rs1: 8, imm: 0 }
8802 Jalr { rd: 0, rs1: 16, imm: 0 }
9002 Ebreak
872e Add { rd: 14, rs1: 0, rs2: 11 }
902e Add { rd: 0, rs1: 0, rs2: 11 }
8656 Add { rd: 12, rs1: 0, rs2: 21 }
8abe Add { rd: 21, rs1: 0, rs2: 15 }
84a2 Add { rd: 9, rs1: 0, rs2: 8 }
a002 none
bffe none
a006 none
a00a none
a012 none
a022 none
a042 none
a082 none
a102 none
a202 none
a402 none
a802 none
b002 none
b82a none
a532 none
aaba none
be56 none
b896 none
c002 Sw { rs1: 2, rs2: 0, imm: 0 }
dffe Sw { rs1: 2, rs2: 31, imm: 252 }
c006 Sw { rs1: 2, rs2: 1, imm: 0 }
c00a Sw { rs1: 2, rs2: 2, imm: 0 }
c012 Sw { rs1: 2, rs2: 4, imm: 0 }
c022 Sw { rs1: 2, rs2: 8, imm: 0 }
c042 Sw { rs1: 2, rs2: 16, imm: 0 }
c082 Sw { rs1: 2, rs2: 0, imm: 64 }
c102 Sw { rs1: 2, rs2: 0, imm: 128 }
c202 Sw { rs1: 2, rs2: 0, imm: 4 }
c402 Sw { rs1: 2, rs2: 0, imm: 8 }
c802 Sw { rs1: 2, rs2: 0, imm: 16 }
d002 Sw { rs1: 2, rs2: 0, imm: 32 }
d79e Sw { rs1: 2, rs2: 7, imm: 236 }
da66 Sw { rs1: 2, rs2: 25, imm: 52 }
ddde Sw { rs1: 2, rs2: 23, imm: 248 }
c496 Sw { rs1: 2, rs2: 5, imm: 72 }
d996 Sw { rs1: 2, rs2: 5, imm: 240 }
e002 Sd { rs1: 2, rs2: 0, imm: 0 }
fffe Sd { rs1: 2, rs2: 31, imm: 504 }
e006 Sd { rs1: 2, rs2: 1, imm: 0 }
e00a Sd { rs1: 2, rs2: 2, imm: 0 }
e012 Sd { rs1: 2, rs2: 4, imm: 0 }
e022 Sd { rs1: 2, rs2: 8, imm: 0 }
e042 Sd { rs1: 2, rs2: 16, imm: 0 }
e082 Sd { rs1: 2, rs2: 0, imm: 64 }
e102 Sd { rs1: 2, rs2: 0, imm: 128 }
e202 Sd { rs1: 2, rs2: 0, imm: 256 }
e402 Sd { rs1: 2, rs2: 0, imm: 8 }
e802 Sd { rs1: 2, rs2: 0, imm: 16 }
f002 Sd { rs1: 2, rs2: 0, imm: 32 }
ef8e Sd { rs1: 2, rs2: 3, imm: 472 }
f5c2 Sd { rs1: 2, rs2: 16, imm: 232 }
f536 Sd { rs1: 2, rs2: 13, imm: 168 }
e502 Sd { rs1: 2, rs2: 0, imm: 136 }
e71e Sd { rs1: 2, rs2: 7, imm: 392 }
8185 Srli { rd: 11, rs1: 11, imm: 1 }
81a5 Srli { rd: 11, rs1: 11, imm: 9 }
81c5 Srli { rd: 11, rs1: 11, imm: 17 }
81e5 Srli { rd: 11, rs1: 11, imm: 25 }
9185 Srli { rd: 11, rs1: 11, imm: 33 }
91a5 Srli { rd: 11, rs1: 11, imm: 41 }
91c5 Srli { rd: 11, rs1: 11, imm: 49 }
91e5 Srli { rd: 11, rs1: 11, imm: 57 }
8585 Srai { rd: 11, rs1: 11, imm: 1 }
85a5 Srai { rd: 11, rs1: 11, imm: 9 }
85c5 Srai { rd: 11, rs1: 11, imm: 17 }
85e5 Srai { rd: 11, rs1: 11, imm: 25 }
9585 Srai { rd: 11, rs1: 11, imm: 33 }
95a5 Srai { rd: 11, rs1: 11, imm: 41 }
95c5 Srai { rd: 11, rs1: 11, imm: 49 }
95e5 Srai { rd: 11, rs1: 11, imm: 57 }
8985 Andi { rd: 11, rs1: 11, imm: 1 }
89a5 Andi { rd: 11, rs1: 11, imm: 9 }
89c5 Andi { rd: 11, rs1: 11, imm: 17 }
89e5 Andi { rd: 11, rs1: 11, imm: 25 }
9985 Andi { rd: 11, rs1: 11, imm: -31 }
99a5 Andi { rd: 11, rs1: 11, imm: -23 }
99c5 Andi { rd: 11, rs1: 11, imm: -15 }
99e5 Andi { rd: 11, rs1: 11, imm: -7 }
8d85 Sub { rd: 11, rs1: 11, rs2: 9 }
8da5 Xor { rd: 11, rs1: 11, rs2: 9 }
8dc5 Or { rd: 11, rs1: 11, rs2: 9 }
8de5 And { rd: 11, rs1: 11, rs2: 9 }
9d85 Subw { rd: 11, rs1: 11, rs2: 9 }
9da5 Addw { rd: 11, rs1: 11, rs2: 9 }
9dc5 none
9de5 none
7101 Addi { rd: 2, rs1: 2, imm: -512 }
6105 Addi { rd: 2, rs1: 2, imm: 32 }
7105 Addi { rd: 2, rs1: 2, imm: -480 }
6109 Addi { rd: 2, rs1: 2, imm: 128 }
7109 Addi { rd: 2, rs1: 2, imm: -384 }
610d Addi { rd: 2, rs1: 2, imm: 160 }
600d Lui { rd: 0, imm: 3 }
710d Addi { rd: 2, rs1: 2, imm: -352 }
9082 Jalr { rd: 1, rs1: 1, imm: 0 }
900a Add { rd: 0, rs1: 0, rs2: 2 }
9006 Add { rd: 0, rs1: 0, rs2: 1 }";
