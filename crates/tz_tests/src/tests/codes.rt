//! Codes of every row with their instructions, as the disassembler of GNU binutils 2.40 for Arm reads them
//! (`objdump -d` of an object for armv8-m.main). A row has the first and second halfword (0 in codes of 16
//! bits), the nine numbers of the instruction and binutils' text.

/// The rows.
pub static CODES: &str = "074d 0000 26 2 0 0 0 5 0 1 29       lsls r5, r1, #29
0bab 0000 26 2 1 0 0 3 0 5 14       lsrs r3, r5, #14
1745 0000 26 2 2 0 0 5 0 0 29       asrs r5, r0, #29
192c 0000 21 2 0 0 0 4 5 4 0        adds r4, r5, r4
1bab 0000 24 2 0 0 0 3 5 6 0        subs r3, r5, r6
1be7 0000 24 2 0 0 0 7 4 7 0        subs r7, r4, r7
1cb8 0000 5 2 0 0 0 0 7 2 0         adds r0, r7, #2
1ff7 0000 8 2 0 0 0 7 6 7 0         subs r7, r6, #7
2051 0000 10 2 0 0 0 0 0 81 0       movs r0, #81
282b 0000 15 1 0 0 0 0 0 43 0       cmp r0, #43
28b1 0000 15 1 0 0 0 0 0 177 0      cmp r0, #177
3732 0000 5 2 0 0 0 7 7 50 0        adds r7, #50
3fa9 0000 8 2 0 0 0 7 7 169 0       subs r7, #169
400d 0000 16 2 0 0 0 5 5 1 0        ands r5, r1
4053 0000 20 2 0 0 0 3 3 2 0        eors r3, r2
409f 0000 32 0 2 0 0 7 7 3 0        lsls r7, r3
40f3 0000 32 1 2 0 0 3 3 6 0        lsrs r3, r6
410c 0000 32 2 2 0 0 4 4 1 0        asrs r4, r1
416b 0000 22 2 0 0 0 3 3 5 0        adcs r3, r5
4158 0000 22 2 0 0 0 0 0 3 0        adcs r0, r3
4182 0000 23 2 0 0 0 2 2 0 0        sbcs r2, r0
4195 0000 23 2 0 0 0 5 5 2 0        sbcs r5, r2
41c7 0000 32 3 2 0 0 7 7 0 0        rors r7, r0
41de 0000 32 3 2 0 0 6 6 3 0        rors r6, r3
4232 0000 28 1 0 0 0 0 2 6 0        tst r2, r6
4246 0000 9 2 0 0 0 6 0 0 0         negs r6, r0
42a4 0000 31 1 0 0 0 0 4 4 0        cmp r4, r4
42b9 0000 31 1 0 0 0 0 1 7 0        cmp r1, r7
42d3 0000 30 1 0 0 0 0 3 2 0        cmn r3, r2
4306 0000 18 2 0 0 0 6 6 0 0        orrs r6, r0
436d 0000 50 2 0 0 0 5 5 5 0        muls r5, r5
43bb 0000 17 2 0 0 0 3 3 7 0        bics r3, r7
43ca 0000 27 2 0 0 0 2 0 1 0        mvns r2, r1
4474 0000 21 0 0 0 0 4 4 14 0       add r4, lr
458e 0000 31 1 0 0 0 0 14 1 0       cmp lr, r1
4676 0000 26 0 0 0 0 6 0 14 0       mov r6, lr
471c 0000 74 1 0 0 0 3 0 0 0        bxns r3
47c0 0000 75 0 0 0 0 8 0 0 0        blx r8
4788 0000 75 0 0 0 0 1 0 0 0        blx r1
4c36 0000 58 2 0 4 0 4 216 0 0      ldr r4, [pc, #216]
5104 0000 59 2 0 0 0 4 0 4 0        str r4, [r0, r4]
512e 0000 59 2 0 0 0 6 5 4 0        str r6, [r5, r4]
5261 0000 59 1 0 0 0 1 4 1 0        strh r1, [r4, r1]
5589 0000 59 0 0 0 0 1 1 6 0        strb r1, [r1, r6]
56bf 0000 58 0 1 0 0 7 7 2 0        ldrsb r7, [r7, r2]
5975 0000 58 2 0 0 0 5 6 5 0        ldr r5, [r6, r5]
5a46 0000 58 1 0 0 0 6 0 1 0        ldrh r6, [r0, r1]
5d4a 0000 58 0 0 0 0 2 1 5 0        ldrb r2, [r1, r5]
5fdd 0000 58 1 1 0 0 5 3 7 0        ldrsh r5, [r3, r7]
6281 0000 59 2 1 0 0 1 0 40 0       str r1, [r0, #40]
6422 0000 59 2 1 0 0 2 4 64 0       str r2, [r4, #64]
6e72 0000 58 2 0 1 0 2 6 100 0      ldr r2, [r6, #100]
7440 0000 59 0 1 0 0 0 0 17 0       strb r0, [r0, #17]
78b2 0000 58 0 0 1 0 2 6 2 0        ldrb r2, [r6, #2]
85e2 0000 59 1 1 0 0 2 4 46 0       strh r2, [r4, #46]
8a78 0000 58 1 0 1 0 0 7 18 0       ldrh r0, [r7, #18]
95a9 0000 59 2 1 0 0 5 13 676 0     str r5, [sp, #676]
9ad8 0000 58 2 0 1 0 2 13 864 0     ldr r2, [sp, #864]
a1b4 0000 34 0 0 0 0 1 720 0 0      add r1, pc, #720
af7a 0000 33 0 0 0 0 7 13 488 0     add r7, sp, #488
a82e 0000 33 0 0 0 0 0 13 184 0     add r0, sp, #184
b0af 0000 33 1 0 0 0 13 13 188 0    sub sp, #188
b06e 0000 33 0 0 0 0 13 13 440 0    add sp, #440
b92c 0000 72 1 0 0 0 4 10 0 0       cbnz r4, e
b225 0000 41 0 0 0 0 5 4 0 0        sxth r5, r4
b23b 0000 41 0 0 0 0 3 7 0 0        sxth r3, r7
b243 0000 42 0 0 0 0 3 0 0 0        sxtb r3, r0
b2b1 0000 43 0 0 0 0 1 6 0 0        uxth r1, r6
b2f8 0000 44 0 0 0 0 0 7 0 0        uxtb r0, r7
b5d5 0000 63 1 1 0 0 13 16597 0 0   push {r0, r2, r4, r6, r7, lr}
b5fd 0000 63 1 1 0 0 13 16637 0 0   push {r0, r2, r3, r4, r5, r6, r7, lr}
bc73 0000 62 0 1 0 0 13 115 0 0     pop {r0, r1, r4, r5, r6}
b661 0000 82 0 0 1 0 0 0 0 0        cpsie f
ba11 0000 45 0 0 0 0 1 2 0 0        rev r1, r2
ba28 0000 45 0 0 0 0 0 5 0 0        rev r0, r5
ba4a 0000 46 0 0 0 0 2 1 0 0        rev16 r2, r1
bafb 0000 48 0 0 0 0 3 7 0 0        revsh r3, r7
bee0 0000 89 0 0 0 0 224 0 0 0      bkpt 0x00e0
bf7e 0000 76 0 0 0 0 7 14 0 0       ittt vc
bfd8 0000 76 0 0 0 0 13 8 0 0       it le
bf70 0000 77 0 0 0 0 7 0 0 0        nop {7}
c69f 0000 63 0 1 0 0 6 159 0 0      stmia r6!, {r0, r1, r2, r3, r4, r7}
cbb8 0000 62 0 0 0 0 3 184 0 0      ldmia r3, {r3, r4, r5, r7}
c9ed 0000 62 0 1 0 0 1 237 0 0      ldmia r1!, {r0, r2, r3, r5, r6, r7}
d517 0000 70 0 0 0 0 5 46 0 0       bpl.n 32
de50 0000 90 0 0 0 0 80 0 0 0       udf #80
df7b 0000 88 0 0 0 0 123 0 0 0      svc 123
df10 0000 88 0 0 0 0 16 0 0 0       svc 16
e4b5 0000 69 0 0 0 0 -1686 0 0 0    b.n fffff96e
e898 1dd1 62 0 0 0 0 8 7633 0 0     ldmia.w r8, {r0, r4, r6, r7, r8, sl, fp, ip}
e881 0259 63 0 0 0 0 1 601 0 0      stmia.w r1, {r0, r3, r4, r6, r9}
e91a 1346 62 1 0 0 0 10 4934 0 0    ldmdb sl, {r1, r2, r6, r8, r9, ip}
e906 4bb9 63 1 0 0 0 6 19385 0 0    stmdb r6, {r0, r3, r4, r5, r7, r8, r9, fp, lr}
e958 59ca 60 1 0 0 0 5 9 8 -808     ldrd r5, r9, [r8, #-808]
e94d 78aa 61 1 0 0 0 7 8 13 -680    strd r7, r8, [sp, #-680]
e9df 61ee 60 4 0 0 0 6 1 952 0      ldrd r6, r1, [pc, #952]
e84c b75d 66 2 0 0 0 7 11 12 372    strex r7, fp, [ip, #372]
e845 f200 85 0 0 0 0 2 5 0 0        tt r2, r5
e858 4ff4 65 2 0 0 0 4 8 976 0      ldrex r4, [r8, #976]
e8c0 9f44 66 0 0 0 0 4 9 0 0        strexb r4, r9, [r0]
e8c9 6f4a 66 0 0 0 0 10 6 9 0       strexb sl, r6, [r9]
e8c5 4f53 66 1 0 0 0 3 4 5 0        strexh r3, r4, [r5]
e8cc 1f8f 68 0 0 0 0 1 12 0 0       stlb r1, [ip]
e8c0 5f9f 68 1 0 0 0 5 0 0 0        stlh r5, [r0]
e8ce bfaf 68 2 0 0 0 11 14 0 0      stl fp, [lr]
e8c2 8faf 68 2 0 0 0 8 2 0 0        stl r8, [r2]
e8c9 cfc1 66 0 1 0 0 1 12 9 0       stlexb r1, ip, [r9]
e8ca 8fdb 66 1 1 0 0 11 8 10 0      stlexh fp, r8, [sl]
e8c1 7fe4 66 2 1 0 0 4 7 1 0        stlex r4, r7, [r1]
e8d3 0f4f 65 0 0 0 0 0 3 0 0        ldrexb r0, [r3]
e8db 8f5f 65 1 0 0 0 8 11 0 0       ldrexh r8, [fp]
e8d5 5f8f 67 0 0 0 0 5 5 0 0        ldab r5, [r5]
e8d0 ef9f 67 1 0 0 0 14 0 0 0       ldah lr, [r0]
e8d5 6faf 67 2 0 0 0 6 5 0 0        lda r6, [r5]
e8d5 4fcf 65 0 1 0 0 4 5 0 0        ldaexb r4, [r5]
e8d7 8fdf 65 1 1 0 0 8 7 0 0        ldaexh r8, [r7]
e8de 5fdf 65 1 1 0 0 5 14 0 0       ldaexh r5, [lr]
e8d9 efef 65 2 1 0 0 14 9 0 0       ldaex lr, [r9]
e8d3 0fef 65 2 1 0 0 0 3 0 0        ldaex r0, [r3]
e8df f014 73 1 0 0 0 15 4 0 0       tbh [pc, r4, lsl #1]
ea1c 6143 16 1 0 0 0 1 12 3 25      ands.w r1, ip, r3, lsl #25
ea15 4f01 28 1 0 0 0 0 5 1 16       tst.w r5, r1, lsl #16
ea28 54c6 17 0 0 0 0 4 8 6 23       bic.w r4, r8, r6, lsl #23
ea55 03a3 18 1 2 0 0 3 5 3 2        orrs.w r3, r5, r3, asr #2
ea4f 2bda 26 0 1 0 0 11 0 10 11     mov.w fp, sl, lsr #11
ea68 1c03 19 0 0 0 0 12 8 3 4       orn ip, r8, r3, lsl #4
ea6f 0b72 27 0 3 0 0 11 0 2 1       mvn.w fp, r2, ror #1
ea92 693c 20 1 3 0 0 9 2 12 24      eors.w r9, r2, ip, ror #24
ea90 6f85 29 1 0 0 0 0 0 5 26       teq r0, r5, lsl #26
ea9a 0f40 29 1 0 0 0 0 10 0 1       teq sl, r0, lsl #1
eb1e 6e4a 21 1 0 0 0 14 14 10 25    adds.w lr, lr, sl, lsl #25
eb15 4fe6 30 1 2 0 0 0 5 6 19       cmn.w r5, r6, asr #19
eb41 7e37 22 0 3 0 0 14 1 7 28      adc.w lr, r1, r7, ror #28
eb45 66a1 22 0 2 0 0 6 5 1 26       adc.w r6, r5, r1, asr #26
eb7e 0665 23 1 2 0 0 6 14 5 1       sbcs.w r6, lr, r5, asr #1
ebae 0787 24 0 0 0 0 7 14 7 2       sub.w r7, lr, r7, lsl #2
ebb0 2fd0 31 1 1 0 0 0 0 0 11       cmp.w r0, r0, lsr #11
ebd3 393e 25 1 3 0 0 9 3 14 12      rsbs r9, r3, lr, ror #12
f40e 5a17 0 0 0 0 0 10 14 3351 0    and.w sl, lr, #9664
f01e 3f8c 12 1 0 0 0 0 14 908 0     tst.w lr, #2358021260
f030 220c 1 1 0 0 0 2 0 524 0       bics.w r2, r0, #201329664
f043 09c6 2 0 0 0 0 9 3 198 0       orr.w r9, r3, #198
f05f 37e5 10 1 0 0 0 7 0 997 0      movs.w r7, #3857049061
f479 162e 3 1 0 0 0 6 9 2350 0      orns r6, r9, #2850816
f46f 20bd 11 0 0 0 0 0 0 2749 0     mvn.w r0, #387072
f49a 31d6 4 1 0 0 0 1 10 3030 0     eors.w r1, sl, #109568
f095 1fcb 13 1 0 0 0 0 5 459 0      teq r5, #13304011
f495 2fee 13 1 0 0 0 0 5 2798 0     teq r5, #487424
f101 335d 5 0 0 0 0 3 1 861 0       add.w r3, r1, #1566399837
f51b 1f97 14 1 0 0 0 0 11 2455 0    cmn.w fp, #1236992
f54b 3467 6 0 0 0 0 4 11 2919 0     adc.w r4, fp, #236544
f16e 0638 7 0 0 0 0 6 14 56 0       sbc.w r6, lr, #56
f5a4 3087 8 0 0 0 0 0 4 2951 0      sub.w r0, r4, #69120
f5b8 2f74 15 1 0 0 0 0 8 2676 0     cmp.w r8, #999424
f1c2 146c 9 0 0 0 0 4 2 364 0       rsb r4, r2, #7077996
f1d5 2e53 9 1 0 0 0 14 5 595 0      rsbs lr, r5, #1392530176
f20a 6410 33 0 0 0 0 4 10 1552 0    addw r4, sl, #1552
f6a9 35c8 33 1 0 0 0 5 9 3016 0     subw r5, r9, #3016
f20f 0a76 34 0 0 0 0 10 118 0 0     addw sl, pc, #118
f6af 5c0c 34 0 0 0 0 12 -3340 0 0   subw ip, pc, #3340
f2c3 1ad8 35 1 0 0 0 10 12760 0 0   movt sl, #12760
f322 52dd 36 1 1 0 0 2 2 30 23      ssat r2, #30, r2, asr #23
f3a5 6009 36 0 1 0 0 0 5 9 24       usat r0, #9, r5, asr #24
f349 1589 37 0 0 0 0 5 9 6 10       sbfx r5, r9, #6, #10
f3c3 3e13 38 0 0 0 0 14 3 12 20     ubfx lr, r3, #12, #20
f367 221a 39 0 0 0 0 2 7 8 19       bfi r2, r7, #8, #19
f36f 2e5a 40 0 0 0 0 14 0 9 18      bfc lr, #9, #18
f20f 8c1e 70 0 0 0 0 8 587836 0 0   bhi.w 8f840
f2b6 b357 69 0 0 0 0 7038638 0 0 0  b.w 6b66b2
f7bf dcb0 71 0 0 0 0 -8652448 0 0 0 bl ff7bf964
f38a 8893 84 0 0 0 0 10 147 0 0     msr FAULTMASK_NS, sl
f3ef 8491 83 0 0 0 0 4 145 0 0      mrs r4, BASEPRI_NS
f3af 80b8 77 0 0 0 0 184 0 0 0      nop.w {184}
f3af 8099 77 0 0 0 0 153 0 0 0      nop.w {153}
f3bf 8f2f 78 0 0 0 0 15 0 0 0       clrex
f3bf 8f4e 79 0 0 0 0 14 0 0 0       dsb st
f3bf 8f5c 80 0 0 0 0 12 0 0 0       dmb #12
f3bf 8f67 81 0 0 0 0 7 0 0 0        isb #7
f3bf 8f67 81 0 0 0 0 7 0 0 0        isb #7
f7f5 a0ad 90 0 0 0 0 20653 0 0 0    udf.w #20653
f8d1 cc2e 58 2 0 1 0 12 1 3118 0    ldr.w ip, [r1, #3118]
f8c4 403c 59 2 1 0 0 4 4 60 0       str.w r4, [r4, #60]
f99a f935 64 0 0 0 0 0 0 0 0        pli [sl, #2357]
f912 3cc4 58 0 1 1 0 3 2 -196 0     ldrsb.w r3, [r2, #-196]
f84e 6cca 59 2 1 0 0 6 14 -202 0    str.w r6, [lr, #-202]
f913 fc50 64 0 0 0 0 0 0 0 0        pli [r3, #-80]
f91d ae97 58 0 1 1 1 10 13 151 0    ldrsbt sl, [sp, #151]
f808 7e29 59 0 1 1 0 7 8 41 0       strbt r7, [r8, #41]
f807 4e00 59 0 1 1 0 4 7 0 0        strbt r4, [r7]
f85b 3d4b 58 2 0 3 0 3 11 -75 0     ldr.w r3, [fp, #-75]!
f84e af26 59 2 3 0 0 10 14 38 0     str.w sl, [lr, #38]!
f831 e032 58 1 0 0 0 14 1 2 3       ldrh.w lr, [r1, r2, lsl #3]
f802 5026 59 0 0 0 0 5 2 6 2        strb.w r5, [r2, r6, lsl #2]
f81c f024 64 0 0 0 0 0 0 0 0        pld [ip, r4, lsl #2]
f8bf 7282 58 1 0 4 0 7 642 0 0      ldrh.w r7, [pc, #642]
f89f f4d9 64 0 0 0 0 0 0 0 0        pld [pc, #1241]
fa73 f709 32 3 1 0 0 7 3 9 0        rors.w r7, r3, r9
fa0f fab7 41 0 0 0 0 10 7 24 0      sxth.w sl, r7, ror #24
fa1f f4a1 43 0 0 0 0 4 1 16 0       uxth.w r4, r1, ror #16
fa1f f2bb 43 0 0 0 0 2 11 24 0      uxth.w r2, fp, ror #24
fa4f f1a6 42 0 0 0 0 1 6 16 0       sxtb.w r1, r6, ror #16
fa5f f290 44 0 0 0 0 2 0 8 0        uxtb.w r2, r0, ror #8
fa96 f586 45 0 0 0 0 5 6 0 0        rev.w r5, r6
fa95 fe95 46 0 0 0 0 14 5 0 0       rev16.w lr, r5
fa96 f9a6 47 0 0 0 0 9 6 0 0        rbit r9, r6
fa9e fcbe 48 0 0 0 0 12 14 0 0      revsh.w ip, lr
fab3 fb83 49 0 0 0 0 11 3 0 0       clz fp, r3
fb01 0405 51 0 0 0 0 4 1 5 0        mla r4, r1, r5, r0
fb0e fb0c 50 0 0 0 0 11 14 12 0     mul.w fp, lr, ip
fb05 7113 52 0 0 0 0 1 5 3 7        mls r1, r5, r3, r7
fb89 e902 53 0 0 0 0 14 9 9 2       smull lr, r9, r9, r2
fba2 a906 54 0 0 0 0 10 9 2 6       umull sl, r9, r2, r6
fbc9 3708 55 0 0 0 0 3 7 9 8        smlal r3, r7, r9, r8
fbec c600 56 0 0 0 0 12 6 12 0      umlal ip, r6, ip, r0
fb95 fcfc 57 1 0 0 0 12 5 12 0      sdiv ip, r5, ip
fbb9 f8f9 57 0 0 0 0 8 9 9 0        udiv r8, r9, r9
e97f e97f 86 0 0 0 0 0 0 0 0        sg
ec3a 0a00 87 1 0 0 0 10 0 0 0       vlldm sl";
