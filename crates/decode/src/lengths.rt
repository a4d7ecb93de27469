// The length in bytes of each op code.
ghost use Rattle.std.specs.Prelude.{◌≡◌, ℕ};
ghost use Rattle.decode.specs.Lengths.{length_of, Agrees};

// At each op code its bytes, without a selecting byte before it. A selecting byte has 1 by itself, and a code that is not carried 0.
pub const LENGTHS: [u8; 256] = [
    1, // 000 HALT
    1, // 001 HALT
    1, // 002 SLC
    1, // 003 RFC
    2, // 004 AD data
    0, // 005
    2, // 006 LA
    1, // 007 RET
    0, // 010
    1, // 011 BFAC
    1, // 012 SRC
    1, // 013 RFZ
    2, // 014 AC data
    0, // 015
    2, // 016 LB
    0, // 017
    1, // 020 BETA
    1, // 021 BT
    1, // 022 selects X or XA
    1, // 023 RFS
    2, // 024 SU data
    0, // 025
    2, // 026 LC
    0, // 027
    1, // 030 ALPHA
    1, // 031 BFSB
    1, // 032 SRE
    1, // 033 RFP
    2, // 034 SB data
    0, // 035
    2, // 036 LD
    0, // 037
    1, // 040 DI
    0, // 041
    0, // 042
    1, // 043 RTC
    2, // 044 ND data
    0, // 045
    2, // 046 LE
    0, // 047
    1, // 050 EI
    3, // 051 PUSH loc
    1, // 052 BP
    1, // 053 RTZ
    2, // 054 XR data
    0, // 055
    2, // 056 LH
    0, // 057
    1, // 060 POP
    0, // 061
    1, // 062 selects C or BC
    1, // 063 RTS
    2, // 064 OR data
    0, // 065
    2, // 066 LL
    1, // 067 SC
    1, // 070 PUSH
    0, // 071
    0, // 072
    1, // 073 RTP
    2, // 074 CP data
    0, // 075
    2, // 076 LX
    0, // 077
    3, // 100 JFC
    1, // 101 INPUT
    3, // 102 CFC
    1, // 103 PIN
    3, // 104 JMP
    0, // 105
    3, // 106 CALL
    0, // 107
    3, // 110 JFZ
    1, // 111 selects B
    3, // 112 CFZ
    1, // 113 selects D
    0, // 114
    1, // 115 selects H
    0, // 116
    0, // 117
    3, // 120 JFS
    1, // 121 EX
    3, // 122 CFS
    1, // 123 EX
    0, // 124
    1, // 125 EX
    0, // 126
    1, // 127 EX
    3, // 130 JFP
    1, // 131 EX
    3, // 132 CFP
    1, // 133 EX
    0, // 134
    1, // 135 EX
    0, // 136
    1, // 137 EX
    3, // 140 JTC
    1, // 141 EX
    3, // 142 CTC
    1, // 143 EX
    0, // 144
    1, // 145 EX
    0, // 146
    1, // 147 EX
    3, // 150 JTZ
    1, // 151 EX
    3, // 152 CTZ
    1, // 153 EX
    0, // 154
    0, // 155
    0, // 156
    0, // 157
    3, // 160 JTS
    0, // 161
    3, // 162 CTS
    0, // 163
    0, // 164
    0, // 165
    0, // 166
    0, // 167
    3, // 170 JTP
    0, // 171
    3, // 172 CTP
    0, // 173
    1, // 174 selects E or DE
    0, // 175
    1, // 176 selects L
    0, // 177
    1, // 200 ADA
    1, // 201 ADB
    1, // 202 ADC
    1, // 203 ADD
    1, // 204 ADE
    1, // 205 ADH
    1, // 206 ADL
    1, // 207 ADM
    1, // 210 ACA
    1, // 211 ACB
    1, // 212 ACC
    1, // 213 ACD
    1, // 214 ACE
    1, // 215 ACH
    1, // 216 ACL
    1, // 217 ACM
    1, // 220 SUA
    1, // 221 SUB
    1, // 222 SUC
    1, // 223 SUD
    1, // 224 SUE
    1, // 225 SUH
    1, // 226 SUL
    1, // 227 SUM
    1, // 230 SBA
    1, // 231 SBB
    1, // 232 SBC
    1, // 233 SBD
    1, // 234 SBE
    1, // 235 SBH
    1, // 236 SBL
    1, // 237 SBM
    1, // 240 NDA
    1, // 241 NDB
    1, // 242 NDC
    1, // 243 NDD
    1, // 244 NDE
    1, // 245 NDH
    1, // 246 NDL
    1, // 247 NDM
    1, // 250 XRA
    1, // 251 XRB
    1, // 252 XRC
    1, // 253 XRD
    1, // 254 XRE
    1, // 255 XRH
    1, // 256 XRL
    1, // 257 XRM
    1, // 260 ORA
    1, // 261 ORB
    1, // 262 ORC
    1, // 263 ORD
    1, // 264 ORE
    1, // 265 ORH
    1, // 266 ORL
    1, // 267 ORM
    1, // 270 CPA
    1, // 271 CPB
    1, // 272 CPC
    1, // 273 CPD
    1, // 274 CPE
    1, // 275 CPH
    1, // 276 CPL
    1, // 277 CPM
    1, // 300 NOP
    1, // 301 LAB
    1, // 302 LAC
    1, // 303 LAD
    1, // 304 LAE
    1, // 305 LAH
    1, // 306 LAL
    1, // 307 LAM
    1, // 310 LBA
    1, // 311 LBB
    1, // 312 LBC
    1, // 313 LBD
    1, // 314 LBE
    1, // 315 LBH
    1, // 316 LBL
    1, // 317 LBM
    1, // 320 LCA
    1, // 321 LCB
    1, // 322 LCC
    1, // 323 LCD
    1, // 324 LCE
    1, // 325 LCH
    1, // 326 LCL
    1, // 327 LCM
    1, // 330 LDA
    1, // 331 LDB
    1, // 332 LDC
    1, // 333 LDD
    1, // 334 LDE
    1, // 335 LDH
    1, // 336 LDL
    1, // 337 LDM
    1, // 340 LEA
    1, // 341 LEB
    1, // 342 LEC
    1, // 343 LED
    1, // 344 LEE
    1, // 345 LEH
    1, // 346 LEL
    1, // 347 LEM
    1, // 350 LHA
    1, // 351 LHB
    1, // 352 LHC
    1, // 353 LHD
    1, // 354 LHE
    1, // 355 LHH
    1, // 356 LHL
    1, // 357 LHM
    1, // 360 LLA
    1, // 361 LLB
    1, // 362 LLC
    1, // 363 LLD
    1, // 364 LLE
    1, // 365 LLH
    1, // 366 LLL
    1, // 367 LLM
    1, // 370 LMA
    1, // 371 LMB
    1, // 372 LMC
    1, // 373 LMD
    1, // 374 LME
    1, // 375 LMH
    1, // 376 LML
    1, // 377 HALT
];

// The table agrees with the bit patterns at every op code: one test, which the proof computes.
fn lengths() -> &'static [u8; 256]
    ensures { Agrees result.now }
{
    &LENGTHS
}

pub fn length_of(op: u8) -> u8
    ensures { result ≡ length_of op }
{
    lengths()[op as usize]
}
