// Four-byte instructions and their meanings, which checks/instruction_table.py takes from GNU binutils.

/// A line is an instruction in hexadecimal and its meaning: an `Inst`, or `none`.
pub const FULL: &str = "\
00000073 Ecall
00100073 Ebreak
00200073 none
00000173 none
10500073 none
30200073 none
00108073 none
0ff0000f Fence { rd: 0, rs1: 0, imm: 255 }
8330000f Fence { rd: 0, rs1: 0, imm: -1997 }
0100000f Fence { rd: 0, rs1: 0, imm: 16 }
ffff8f8f Fence { rd: 31, rs1: 31, imm: -1 }
00000037 Lui { rd: 0, imm: 0 }
fffff037 Lui { rd: 0, imm: -1 }
80000037 Lui { rd: 0, imm: -524288 }
7fffffb7 Lui { rd: 31, imm: 524287 }
000000b7 Lui { rd: 1, imm: 0 }
00000437 Lui { rd: 8, imm: 0 }
00002037 Lui { rd: 0, imm: 2 }
00010037 Lui { rd: 0, imm: 16 }
00080037 Lui { rd: 0, imm: 128 }
00400037 Lui { rd: 0, imm: 1024 }
02000037 Lui { rd: 0, imm: 8192 }
10000037 Lui { rd: 0, imm: 65536 }
ceb166b7 Lui { rd: 13, imm: -201962 }
7f894c37 Lui { rd: 24, imm: 522388 }
00000017 Auipc { rd: 0, imm: 0 }
fffff017 Auipc { rd: 0, imm: -1 }
80000017 Auipc { rd: 0, imm: -524288 }
7fffff97 Auipc { rd: 31, imm: 524287 }
00000097 Auipc { rd: 1, imm: 0 }
00000417 Auipc { rd: 8, imm: 0 }
00002017 Auipc { rd: 0, imm: 2 }
00010017 Auipc { rd: 0, imm: 16 }
00080017 Auipc { rd: 0, imm: 128 }
00400017 Auipc { rd: 0, imm: 1024 }
02000017 Auipc { rd: 0, imm: 8192 }
10000017 Auipc { rd: 0, imm: 65536 }
da869a17 Auipc { rd: 20, imm: -153495 }
69124917 Auipc { rd: 18, imm: 430372 }
0000006f Jal { rd: 0, imm: 0 }
fffff06f Jal { rd: 0, imm: -2 }
8000006f Jal { rd: 0, imm: -1048576 }
7fffffef Jal { rd: 31, imm: 1048574 }
000000ef Jal { rd: 1, imm: 0 }
0000046f Jal { rd: 8, imm: 0 }
0000206f Jal { rd: 0, imm: 8192 }
0001006f Jal { rd: 0, imm: 65536 }
0008006f Jal { rd: 0, imm: 524288 }
0040006f Jal { rd: 0, imm: 4 }
0200006f Jal { rd: 0, imm: 32 }
1000006f Jal { rd: 0, imm: 256 }
1a3d33ef Jal { rd: 7, imm: 866722 }
3dd9f7ef Jal { rd: 15, imm: 654300 }
1d240b67 Jalr { rd: 22, rs1: 8, imm: 466 }
50568de7 Jalr { rd: 27, rs1: 13, imm: 1285 }
7ff00fe7 Jalr { rd: 31, rs1: 0, imm: 2047 }
80008067 Jalr { rd: 0, rs1: 1, imm: -2048 }
47a212e7 none
4b8b1167 none
7ff01fe7 none
80009067 none
2575a5e7 none
6394a6e7 none
7ff02fe7 none
8000a067 none
992ab3e7 none
408230e7 none
7ff03fe7 none
8000b067 none
77aecce7 none
90e24467 none
7ff04fe7 none
8000c067 none
76445b67 none
fd785067 none
7ff05fe7 none
8000d067 none
b829e767 none
f207e567 none
7ff06fe7 none
8000e067 none
b125f867 none
aeb2f767 none
7ff07fe7 none
8000f067 none
000000e7 Jalr { rd: 1, rs1: 0, imm: 0 }
00000167 Jalr { rd: 2, rs1: 0, imm: 0 }
00000867 Jalr { rd: 16, rs1: 0, imm: 0 }
00100067 Jalr { rd: 0, rs1: 0, imm: 1 }
01000067 Jalr { rd: 0, rs1: 0, imm: 16 }
02000067 Jalr { rd: 0, rs1: 0, imm: 32 }
40000067 Jalr { rd: 0, rs1: 0, imm: 1024 }
80000067 Jalr { rd: 0, rs1: 0, imm: -2048 }
92f008e3 Beq { rs1: 0, rs2: 15, imm: -1744 }
8c310363 Beq { rs1: 2, rs2: 3, imm: -3898 }
7ff00fe3 Beq { rs1: 0, rs2: 31, imm: 4094 }
80008063 Beq { rs1: 1, rs2: 0, imm: -4096 }
61811963 Bne { rs1: 2, rs2: 24, imm: 1554 }
70929763 Bne { rs1: 5, rs2: 9, imm: 1806 }
7ff01fe3 Bne { rs1: 0, rs2: 31, imm: 4094 }
80009063 Bne { rs1: 1, rs2: 0, imm: -4096 }
9ba82c63 none
3c11a163 none
7ff02fe3 none
8000a063 none
7f78b563 none
db8f3763 none
7ff03fe3 none
8000b063 none
d7814163 Blt { rs1: 2, rs2: 24, imm: -2718 }
25bbc5e3 Blt { rs1: 23, rs2: 27, imm: 2634 }
7ff04fe3 Blt { rs1: 0, rs2: 31, imm: 4094 }
8000c063 Blt { rs1: 1, rs2: 0, imm: -4096 }
969bdd63 Bge { rs1: 23, rs2: 9, imm: -3718 }
0d46d7e3 Bge { rs1: 13, rs2: 20, imm: 2254 }
7ff05fe3 Bge { rs1: 0, rs2: 31, imm: 4094 }
8000d063 Bge { rs1: 1, rs2: 0, imm: -4096 }
66f5e563 Bltu { rs1: 11, rs2: 15, imm: 1642 }
f9de6ae3 Bltu { rs1: 28, rs2: 29, imm: -108 }
7ff06fe3 Bltu { rs1: 0, rs2: 31, imm: 4094 }
8000e063 Bltu { rs1: 1, rs2: 0, imm: -4096 }
db95f363 Bgeu { rs1: 11, rs2: 25, imm: -2650 }
8d8c7463 Bgeu { rs1: 24, rs2: 24, imm: -3896 }
7ff07fe3 Bgeu { rs1: 0, rs2: 31, imm: 4094 }
8000f063 Bgeu { rs1: 1, rs2: 0, imm: -4096 }
000000e3 Beq { rs1: 0, rs2: 0, imm: 2048 }
00000163 Beq { rs1: 0, rs2: 0, imm: 2 }
00000863 Beq { rs1: 0, rs2: 0, imm: 16 }
00100063 Beq { rs1: 0, rs2: 1, imm: 0 }
01000063 Beq { rs1: 0, rs2: 16, imm: 0 }
02000063 Beq { rs1: 0, rs2: 0, imm: 32 }
40000063 Beq { rs1: 0, rs2: 0, imm: 1024 }
80000063 Beq { rs1: 0, rs2: 0, imm: -4096 }
1ee10c03 Lb { rd: 24, rs1: 2, imm: 494 }
d1a00483 Lb { rd: 9, rs1: 0, imm: -742 }
7ff00f83 Lb { rd: 31, rs1: 0, imm: 2047 }
80008003 Lb { rd: 0, rs1: 1, imm: -2048 }
08871583 Lh { rd: 11, rs1: 14, imm: 136 }
535c9783 Lh { rd: 15, rs1: 25, imm: 1333 }
7ff01f83 Lh { rd: 31, rs1: 0, imm: 2047 }
80009003 Lh { rd: 0, rs1: 1, imm: -2048 }
f8a9a503 Lw { rd: 10, rs1: 19, imm: -118 }
948dac03 Lw { rd: 24, rs1: 27, imm: -1720 }
7ff02f83 Lw { rd: 31, rs1: 0, imm: 2047 }
8000a003 Lw { rd: 0, rs1: 1, imm: -2048 }
6956b183 Ld { rd: 3, rs1: 13, imm: 1685 }
5696b803 Ld { rd: 16, rs1: 13, imm: 1385 }
7ff03f83 Ld { rd: 31, rs1: 0, imm: 2047 }
8000b003 Ld { rd: 0, rs1: 1, imm: -2048 }
b1484583 Lbu { rd: 11, rs1: 16, imm: -1260 }
d768c783 Lbu { rd: 15, rs1: 17, imm: -650 }
7ff04f83 Lbu { rd: 31, rs1: 0, imm: 2047 }
8000c003 Lbu { rd: 0, rs1: 1, imm: -2048 }
0483d203 Lhu { rd: 4, rs1: 7, imm: 72 }
4676d983 Lhu { rd: 19, rs1: 13, imm: 1127 }
7ff05f83 Lhu { rd: 31, rs1: 0, imm: 2047 }
8000d003 Lhu { rd: 0, rs1: 1, imm: -2048 }
3d00e203 Lwu { rd: 4, rs1: 1, imm: 976 }
33a9e983 Lwu { rd: 19, rs1: 19, imm: 826 }
7ff06f83 Lwu { rd: 31, rs1: 0, imm: 2047 }
8000e003 Lwu { rd: 0, rs1: 1, imm: -2048 }
1a8eff03 none
3ed4fa03 none
7ff07f83 none
8000f003 none
00000083 Lb { rd: 1, rs1: 0, imm: 0 }
00000103 Lb { rd: 2, rs1: 0, imm: 0 }
00000803 Lb { rd: 16, rs1: 0, imm: 0 }
00100003 Lb { rd: 0, rs1: 0, imm: 1 }
01000003 Lb { rd: 0, rs1: 0, imm: 16 }
02000003 Lb { rd: 0, rs1: 0, imm: 32 }
40000003 Lb { rd: 0, rs1: 0, imm: 1024 }
80000003 Lb { rd: 0, rs1: 0, imm: -2048 }
8cb50823 Sb { rs1: 10, rs2: 11, imm: -1840 }
65e70023 Sb { rs1: 14, rs2: 30, imm: 1600 }
7ff00fa3 Sb { rs1: 0, rs2: 31, imm: 2047 }
80008023 Sb { rs1: 1, rs2: 0, imm: -2048 }
be7b1923 Sh { rs1: 22, rs2: 7, imm: -1038 }
55ec1da3 Sh { rs1: 24, rs2: 30, imm: 1371 }
7ff01fa3 Sh { rs1: 0, rs2: 31, imm: 2047 }
80009023 Sh { rs1: 1, rs2: 0, imm: -2048 }
9332a023 Sw { rs1: 5, rs2: 19, imm: -1760 }
5d0727a3 Sw { rs1: 14, rs2: 16, imm: 1487 }
7ff02fa3 Sw { rs1: 0, rs2: 31, imm: 2047 }
8000a023 Sw { rs1: 1, rs2: 0, imm: -2048 }
d92d33a3 Sd { rs1: 26, rs2: 18, imm: -633 }
c9dc3023 Sd { rs1: 24, rs2: 29, imm: -896 }
7ff03fa3 Sd { rs1: 0, rs2: 31, imm: 2047 }
8000b023 Sd { rs1: 1, rs2: 0, imm: -2048 }
baa3cba3 none
3eef47a3 none
7ff04fa3 none
8000c023 none
f6195623 none
2b65dba3 none
7ff05fa3 none
8000d023 none
31f26723 none
13966aa3 none
7ff06fa3 none
8000e023 none
0cadf723 none
063ffb23 none
7ff07fa3 none
8000f023 none
000000a3 Sb { rs1: 0, rs2: 0, imm: 1 }
00000123 Sb { rs1: 0, rs2: 0, imm: 2 }
00000823 Sb { rs1: 0, rs2: 0, imm: 16 }
00100023 Sb { rs1: 0, rs2: 1, imm: 0 }
01000023 Sb { rs1: 0, rs2: 16, imm: 0 }
02000023 Sb { rs1: 0, rs2: 0, imm: 32 }
40000023 Sb { rs1: 0, rs2: 0, imm: 1024 }
80000023 Sb { rs1: 0, rs2: 0, imm: -2048 }
99ff050f Fence { rd: 10, rs1: 30, imm: -1633 }
11bb800f Fence { rd: 0, rs1: 23, imm: 283 }
7ff00f8f Fence { rd: 31, rs1: 0, imm: 2047 }
8000800f Fence { rd: 0, rs1: 1, imm: -2048 }
b786998f none
a3f0118f none
7ff01f8f none
8000900f none
d04da08f none
5c10a00f none
7ff02f8f none
8000a00f none
a916bf0f none
c1263d8f none
7ff03f8f none
8000b00f none
10534b0f none
14e1408f none
7ff04f8f none
8000c00f none
d96d5c8f none
be19d88f none
7ff05f8f none
8000d00f none
ab31e80f none
655fe18f none
7ff06f8f none
8000e00f none
78fc7e8f none
f9ec7d8f none
7ff07f8f none
8000f00f none
0000008f Fence { rd: 1, rs1: 0, imm: 0 }
0000010f Fence { rd: 2, rs1: 0, imm: 0 }
0000080f Fence { rd: 16, rs1: 0, imm: 0 }
0010000f Fence { rd: 0, rs1: 0, imm: 1 }
0200000f Fence { rd: 0, rs1: 0, imm: 32 }
4000000f Fence { rd: 0, rs1: 0, imm: 1024 }
8000000f Fence { rd: 0, rs1: 0, imm: -2048 }
7e790193 Addi { rd: 3, rs1: 18, imm: 2023 }
80790893 Addi { rd: 17, rs1: 18, imm: -2041 }
01a19393 Slli { rd: 7, rs1: 3, imm: 26 }
40c69893 none
02871193 Slli { rd: 3, rs1: 14, imm: 40 }
425e9513 none
048a9013 none
80431093 none
ff7e9a93 none
7ff6a793 Slti { rd: 15, rs1: 13, imm: 2047 }
80bca393 Slti { rd: 7, rs1: 25, imm: -2037 }
7ea33b93 Sltiu { rd: 23, rs1: 6, imm: 2026 }
8153b113 Sltiu { rd: 2, rs1: 7, imm: -2027 }
7fcf4593 Xori { rd: 11, rs1: 30, imm: 2044 }
8108c493 Xori { rd: 9, rs1: 17, imm: -2032 }
000ed393 Srli { rd: 7, rs1: 29, imm: 0 }
40a75413 Srai { rd: 8, rs1: 14, imm: 10 }
02f7d613 Srli { rd: 12, rs1: 15, imm: 47 }
425a5813 Srai { rd: 16, rs1: 20, imm: 37 }
051a5893 none
81d35c13 none
ff5ad393 none
7f726413 Ori { rd: 8, rs1: 4, imm: 2039 }
808f6d13 Ori { rd: 26, rs1: 30, imm: -2040 }
7ebb7213 Andi { rd: 4, rs1: 22, imm: 2027 }
813b7513 Andi { rd: 10, rs1: 22, imm: -2029 }
7e218c1b Addiw { rd: 24, rs1: 3, imm: 2018 }
80d6011b Addiw { rd: 2, rs1: 12, imm: -2035 }
0111169b Slliw { rd: 13, rs1: 2, imm: 17 }
40fa9c9b none
0360951b none
437f101b none
05a71a1b none
8006159b none
ff56929b none
7e63251b none
803ea99b none
7ff6379b none
81b83d1b none
7edfce9b none
80fbce1b none
0186579b Srliw { rd: 15, rs1: 12, imm: 24 }
4140521b Sraiw { rd: 4, rs1: 0, imm: 20 }
03fd5b1b none
42e3d01b none
04c2db9b none
8197d49b none
ff77d31b none
7e63661b none
8018659b none
7f157c1b none
8062749b none
012d0db3 Add { rd: 27, rs1: 26, rs2: 18 }
027b0d33 Mul { rd: 26, rs1: 22, rs2: 7 }
41500db3 Sub { rd: 27, rs1: 0, rs2: 21 }
05d18933 none
43430a33 none
01ee9bb3 Sll { rd: 23, rs1: 29, rs2: 30 }
03f193b3 Mulh { rd: 7, rs1: 3, rs2: 31 }
40dd15b3 none
049e99b3 none
42f11533 none
00192833 Slt { rd: 16, rs1: 18, rs2: 1 }
0203ab33 Mulhsu { rd: 22, rs1: 7, rs2: 0 }
41bda233 none
04bda3b3 none
43d221b3 none
01dc3633 Sltu { rd: 12, rs1: 24, rs2: 29 }
0264b9b3 Mulhu { rd: 19, rs1: 9, rs2: 6 }
416e30b3 none
04c03333 none
43cc3333 none
016cc233 Xor { rd: 4, rs1: 25, rs2: 22 }
03c44bb3 Div { rd: 23, rs1: 8, rs2: 28 }
40a7cf33 none
04f5c4b3 none
434bc633 none
00aedeb3 Srl { rd: 29, rs1: 29, rs2: 10 }
03615e33 Divu { rd: 28, rs1: 2, rs2: 22 }
41d0deb3 Sra { rd: 29, rs1: 1, rs2: 29 }
048e55b3 none
43e9d8b3 none
005564b3 Or { rd: 9, rs1: 10, rs2: 5 }
0368edb3 Rem { rd: 27, rs1: 17, rs2: 22 }
40a56db3 none
057d6cb3 none
4381efb3 none
00e17033 And { rd: 0, rs1: 2, rs2: 14 }
02fc7b33 Remu { rd: 22, rs1: 24, rs2: 15 }
40e87233 none
056ff533 none
42a67733 none
00e702bb Addw { rd: 5, rs1: 14, rs2: 14 }
02b68a3b Mulw { rd: 20, rs1: 13, rs2: 11 }
414a8e3b Subw { rd: 28, rs1: 21, rs2: 20 }
04648fbb none
42da03bb none
00c995bb Sllw { rd: 11, rs1: 19, rs2: 12 }
023993bb none
40c39a3b none
04b11b3b none
421412bb none
00b7a1bb none
03f8a93b none
4189abbb none
05faa43b none
42f1a3bb none
015fb6bb none
021c3abb none
40a3b73b none
041ab0bb none
42b7bcbb none
0001cebb none
039ece3b Divw { rd: 28, rs1: 29, rs2: 25 }
4005c33b none
053d413b none
42a3c13b none
007dd5bb Srlw { rd: 11, rs1: 27, rs2: 7 }
03ffd4bb Divuw { rd: 9, rs1: 31, rs2: 31 }
416f503b Sraw { rd: 0, rs1: 30, rs2: 22 }
05bd523b none
424255bb none
01cd6c3b none
0283e73b Remw { rd: 14, rs1: 7, rs2: 8 }
41ae69bb none
0481ed3b none
42fa6abb none
003ff23b none
0289febb Remuw { rd: 29, rs1: 19, rs2: 8 }
4148f6bb none
057c7bbb none
42c1753b none
d4d68d03 Lb { rd: 26, rs1: 13, imm: -691 }
24eed387 none
daaeb58b none
552df10f none
ca12fd13 Andi { rd: 26, rs1: 5, imm: -863 }
daeb8197 Auipc { rd: 3, imm: -151880 }
9ad91c9b none
5a12e2a3 none
b9076727 none
f259cb2b none
9ace292f none
ee63b2b3 none
9019ccb7 Lui { rd: 25, imm: -458340 }
7a34efbb none
85fedfc3 none
ac1d5d47 none
4bd9ef4b none
c548034f none
712bbbd3 none
042ba657 none
5c6d19db none
39825ee3 Bge { rs1: 4, rs2: 24, imm: 2972 }
16762b67 none
afa9f76b none
a2214aef Jal { rd: 21, imm: -966110 }
c5f725f3 none
8ce24c77 none
7f9df5fb none
0000001f none
0000003f none
1234505f none
ffffffff none";
