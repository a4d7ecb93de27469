// The bytes that the shippers and the trespasser run and read. Written by examples/make-shippers.py.
use office::question::Shipment;

// Alder Freight: the price of zone and weight, a fuel surcharge, and a minimum.
#[rattlefmt::skip]
pub const ALDER: [u8; 208] = [
    0o006, 0o001,          // START  LA 001     1: the next shipment?
    0o067,                 //        SC         B is the zone, C the weight
    0o301,                 //        LAB
    0o074, 0o377,          //        CP 377     377: there is none
    0o150, 0o307, 0o000,   //        JTZ DONE
    0o056, 0o020,          //        LH 020     HL is the first weight of the tariff
    0o066, 0o000,          //        LL 000
    0o307,                 // BAND   LAM        up to this weight?
    0o272,                 //        CPC        carry if it is below that of the shipment
    0o100, 0o030, 0o000,   //        JFC FOUND
    0o176, 0o004, 0o001,   //        ADL 1      no: the next weight
    0o104, 0o015, 0o000,   //        JMP BAND
    0o306,                 // FOUND  LAL        L is the number of the weight, and A is
    0o002,                 //        SLC        2 * L
    0o206,                 //        ADL        3 * L
    0o004, 0o020,          //        AD 020     16 + 3 * L: its price in zone 0
    0o111, 0o024, 0o001,   // ZONE   SUB 1      12 bytes further for each zone
    0o140, 0o050, 0o000,   //        JTC PRICE  carry once B was 0
    0o004, 0o014,          //        AD 014
    0o104, 0o035, 0o000,   //        JMP ZONE
    0o360,                 // PRICE  LLA        HL is the price in the tariff,
    0o036, 0o001,          //        LD 001     which goes to the charge
    0o046, 0o010,          //        LE 010
    0o106, 0o310, 0o000,   //        CALL MOVE
    0o056, 0o001,          //        LH 001     the product is 50 at first, so that
    0o066, 0o020,          //        LL 020     its hundredth is rounded
    0o006, 0o000,          //        LA 000
    0o370,                 //        LMA
    0o176, 0o004, 0o001,   //        ADL 1
    0o370,                 //        LMA
    0o176, 0o004, 0o001,   //        ADL 1
    0o006, 0o062,          //        LA 062
    0o370,                 //        LMA
    0o056, 0o020,          //        LH 020     B is the fuel surcharge, in per cent
    0o066, 0o004,          //        LL 004
    0o317,                 //        LBM
    0o056, 0o001,          // TIMES  LH 001     the price is added to the product, B times
    0o066, 0o012,          //        LL 012
    0o036, 0o001,          //        LD 001
    0o046, 0o022,          //        LE 022
    0o026, 0o003,          //        LC 003
    0o240,                 //        NDA        carry is clear
    0o011,                 //        BFAC
    0o111, 0o024, 0o001,   //        SUB 1
    0o110, 0o106, 0o000,   //        JFZ TIMES
    0o056, 0o001,          //        LH 001     C, D and E are the product
    0o066, 0o020,          //        LL 020
    0o327,                 //        LCM
    0o176, 0o004, 0o001,   //        ADL 1
    0o337,                 //        LDM
    0o176, 0o004, 0o001,   //        ADL 1
    0o347,                 //        LEM
    0o006, 0o000,          //        LA 000     divided by 100, bit by bit: A is the rest,
    0o066, 0o030,          //        LL 030     L counts the 24 bits
    0o174, 0o204,          // BIT    ADE E      the next bit of C, D and E goes to A,
    0o113, 0o213,          //        ACD D
    0o062, 0o212,          //        ACC C
    0o210,                 //        ACA
    0o074, 0o144,          //        CP 144     and 100 leaves it where it is in it:
    0o140, 0o172, 0o000,   //        JTC LESS
    0o024, 0o144,          //        SU 144
    0o174, 0o004, 0o001,   //        ADE 1      a 1 in the quotient, in C, D and E too
    0o176, 0o024, 0o001,   // LESS   SUL 1
    0o110, 0o151, 0o000,   //        JFZ BIT
    0o066, 0o022,          //        LL 022     the quotient is the surcharge,
    0o374,                 //        LME
    0o176, 0o024, 0o001,   //        SUL 1
    0o373,                 //        LMD
    0o176, 0o024, 0o001,   //        SUL 1
    0o372,                 //        LMC
    0o066, 0o022,          //        LL 022     which is added to the charge
    0o036, 0o001,          //        LD 001
    0o046, 0o012,          //        LE 012
    0o026, 0o003,          //        LC 003
    0o240,                 //        NDA
    0o011,                 //        BFAC
    0o056, 0o020,          //        LH 020     the minimum goes to the work field,
    0o066, 0o006,          //        LL 006
    0o046, 0o030,          //        LE 030
    0o106, 0o310, 0o000,   //        CALL MOVE
    0o056, 0o001,          //        LH 001     less the charge:
    0o066, 0o012,          //        LL 012
    0o046, 0o032,          //        LE 032
    0o026, 0o003,          //        LC 003
    0o240,                 //        NDA
    0o031,                 //        BFSB
    0o140, 0o264, 0o000,   //        JTC TELL   carry if the minimum is below the charge,
    0o056, 0o020,          //        LH 020     else it is the charge
    0o066, 0o006,          //        LL 006
    0o046, 0o010,          //        LE 010
    0o106, 0o310, 0o000,   //        CALL MOVE
    0o056, 0o001,          // TELL   LH 001     HL is the charge, high byte first
    0o066, 0o010,          //        LL 010
    0o317,                 //        LBM
    0o176, 0o004, 0o001,   //        ADL 1
    0o327,                 //        LCM
    0o176, 0o004, 0o001,   //        ADL 1
    0o337,                 //        LDM
    0o006, 0o002,          //        LA 002     2: B, C and D are the charge
    0o067,                 //        SC
    0o104, 0o000, 0o000,   //        JMP START
    0o000,                 // DONE   HALT
    0o006, 0o000,          // MOVE   LA 000     three bytes from HL to DE: nothing is added,
    0o016, 0o000,          //        LB 000     no byte ends the move,
    0o026, 0o003,          //        LC 003     and there are three
    0o021,                 //        BT
    0o007,                 //        RET
];

// Birch Parcel: the first price of the zone, steps of weight, and a sixteenth off for heavy shipments.
#[rattlefmt::skip]
pub const BIRCH: [u8; 176] = [
    0o006, 0o001,          // START  LA 001     1: the next shipment?
    0o067,                 //        SC         B is the zone, C the weight
    0o301,                 //        LAB
    0o074, 0o377,          //        CP 377     377: there is none
    0o150, 0o247, 0o000,   //        JTZ DONE
    0o056, 0o001,          //        LH 001     the weight is kept at 000440
    0o066, 0o040,          //        LL 040
    0o372,                 //        LMC
    0o002,                 //        SLC        2 * zone
    0o201,                 //        ADB        3 * zone
    0o176, 0o004, 0o001,   //        ADL 1      is kept behind it
    0o370,                 //        LMA
    0o360,                 //        LLA        HL is the rate of the zone,
    0o176, 0o004, 0o100,   //        ADL 100
    0o056, 0o020,          //        LH 020
    0o036, 0o001,          //        LD 001     which goes to the rate field
    0o046, 0o020,          //        LE 020
    0o106, 0o250, 0o000,   //        CALL MOVE
    0o056, 0o001,          //        LH 001
    0o066, 0o041,          //        LL 041
    0o307,                 //        LAM        3 * zone
    0o002,                 //        SLC        6 * zone
    0o002,                 //        SLC        12 * zone
    0o004, 0o020,          //        AD 020
    0o360,                 //        LLA        HL is the zone's price up to the first weight,
    0o056, 0o020,          //        LH 020
    0o046, 0o010,          //        LE 010     which goes to the charge
    0o106, 0o250, 0o000,   //        CALL MOVE
    0o056, 0o001,          //        LH 001
    0o066, 0o040,          //        LL 040
    0o307,                 //        LAM        the weight
    0o056, 0o020,          //        LH 020
    0o066, 0o000,          //        LL 000
    0o227,                 //        SUM        less the first weight of the tariff
    0o140, 0o126, 0o000,   //        JTC WHOLE  not more than that:
    0o150, 0o126, 0o000,   //        JTZ WHOLE  there are no steps
    0o310,                 //        LBA        B is the weight beyond it
    0o056, 0o001,          // STEP   LH 001     the rate is added to the charge
    0o066, 0o022,          //        LL 022
    0o046, 0o012,          //        LE 012
    0o026, 0o003,          //        LC 003
    0o240,                 //        NDA        carry is clear
    0o011,                 //        BFAC
    0o111, 0o024, 0o002,   //        SUB 2      for each 2 of B, and for the last 1
    0o140, 0o126, 0o000,   //        JTC WHOLE
    0o110, 0o103, 0o000,   //        JFZ STEP
    0o056, 0o001,          // WHOLE  LH 001
    0o066, 0o040,          //        LL 040
    0o307,                 //        LAM        the weight
    0o056, 0o020,          //        LH 020
    0o066, 0o005,          //        LL 005
    0o277,                 //        CPM        carry if it is below that of heavy shipments
    0o140, 0o224, 0o000,   //        JTC TELL
    0o056, 0o001,          //        LH 001     C, D and E are the charge
    0o066, 0o010,          //        LL 010
    0o327,                 //        LCM
    0o176, 0o004, 0o001,   //        ADL 1
    0o337,                 //        LDM
    0o176, 0o004, 0o001,   //        ADL 1
    0o347,                 //        LEM
    0o066, 0o004,          //        LL 004     four places to the right: a sixteenth of it
    0o240,                 // RIGHT  NDA        carry is clear
    0o062, 0o032,          //        SRE C
    0o113, 0o032,          //        SRE D
    0o174, 0o032,          //        SRE E
    0o176, 0o024, 0o001,   //        SUL 1
    0o110, 0o162, 0o000,   //        JFZ RIGHT
    0o066, 0o032,          //        LL 032     goes to the work field
    0o374,                 //        LME
    0o176, 0o024, 0o001,   //        SUL 1
    0o373,                 //        LMD
    0o176, 0o024, 0o001,   //        SUL 1
    0o372,                 //        LMC
    0o066, 0o032,          //        LL 032     and off the charge
    0o036, 0o001,          //        LD 001
    0o046, 0o012,          //        LE 012
    0o026, 0o003,          //        LC 003
    0o240,                 //        NDA
    0o031,                 //        BFSB
    0o056, 0o001,          // TELL   LH 001     HL is the charge, high byte first
    0o066, 0o010,          //        LL 010
    0o317,                 //        LBM
    0o176, 0o004, 0o001,   //        ADL 1
    0o327,                 //        LCM
    0o176, 0o004, 0o001,   //        ADL 1
    0o337,                 //        LDM
    0o006, 0o002,          //        LA 002     2: B, C and D are the charge
    0o067,                 //        SC
    0o104, 0o000, 0o000,   //        JMP START
    0o000,                 // DONE   HALT
    0o006, 0o000,          // MOVE   LA 000     three bytes from HL to DE: nothing is added,
    0o016, 0o000,          //        LB 000     no byte ends the move,
    0o026, 0o003,          //        LC 003     and there are three
    0o021,                 //        BT
    0o007,                 //        RET
];

// The trespasser stores into the tariff: stop 7.
#[rattlefmt::skip]
pub const WRITES_TARIFF: [u8; 8] = [
    0o056, 0o020,          //        LH 020     HL is the first weight of the tariff,
    0o066, 0o000,          //        LL 000
    0o006, 0o000,          //        LA 000
    0o370,                 //        LMA        which may only be read
    0o000,                 //        HALT
];

// The trespasser moves a block into the tariff: stop 7.
#[rattlefmt::skip]
pub const MOVES_INTO_TARIFF: [u8; 12] = [
    0o056, 0o000,          //        LH 000     HL is its own code,
    0o066, 0o000,          //        LL 000
    0o036, 0o017,          //        LD 017     DE is the last byte of its own page,
    0o046, 0o377,          //        LE 377
    0o026, 0o002,          //        LC 002     and there are two
    0o021,                 //        BT         so the second goes to the tariff
    0o000,                 //        HALT
];

// The trespasser reads beyond its table: stop 6.
#[rattlefmt::skip]
pub const READS_BEYOND: [u8; 6] = [
    0o056, 0o040,          //        LH 040     HL is in sector 2, which gives no access
    0o066, 0o000,          //        LL 000
    0o307,                 //        LAM
    0o000,                 //        HALT
];

// The trespasser jumps beyond its table: stop 6.
#[rattlefmt::skip]
pub const JUMPS_BEYOND: [u8; 3] = [
    0o104, 0o000, 0o040,   //        JMP 020000 sector 2 gives no access
];

// The trespasser loads a sector table: stop 5.
#[rattlefmt::skip]
pub const LOADS_TABLE: [u8; 9] = [
    0o056, 0o000,          //        LH 000     HL is a table of its own making
    0o066, 0o006,          //        LL 006
    0o077,                 //        STL        the sector table is the host's to load
    0o000,                 //        HALT
    0o074, 0o114, 0o124,   //                   the table, with the pages of both shippers
];

// The tariff, as it stands at the start of its page.
#[rattlefmt::skip]
pub const TARIFF: [u8; 76] = [
    0o012, 0o031, 0o062, 0o377, // up to 10, up to 25, up to 50, up to 255
    0o016,                 // fuel surcharge: 14 per cent
    0o144,                 // heavy from 100 on
    0o000, 0o002, 0o130,   // minimum: 600
    0o000, 0o000, 0o000, 0o000, 0o000, 0o000, 0o000,
    0o000, 0o001, 0o302,   // zone 0 up to 10: 450
    0o000, 0o002, 0o320,   // zone 0 up to 25: 720
    0o000, 0o004, 0o246,   // zone 0 up to 50: 1190
    0o000, 0o007, 0o274,   // zone 0 up to 255: 1980
    0o000, 0o004, 0o342,   // zone 1 up to 10: 1250
    0o000, 0o011, 0o260,   // zone 1 up to 25: 2480
    0o000, 0o021, 0o046,   // zone 1 up to 50: 4390
    0o000, 0o037, 0o270,   // zone 1 up to 255: 8120
    0o000, 0o016, 0o133,   // zone 2 up to 10: 3675
    0o000, 0o037, 0o004,   // zone 2 up to 25: 7940
    0o000, 0o072, 0o002,   // zone 2 up to 50: 14850
    0o000, 0o164, 0o314,   // zone 2 up to 255: 29900
    0o000, 0o111, 0o324,   // zone 3 up to 10: 18900
    0o000, 0o241, 0o042,   // zone 3 up to 25: 41250
    0o001, 0o131, 0o120,   // zone 3 up to 50: 88400
    0o002, 0o257, 0o200,   // zone 3 up to 255: 176000
    0o000, 0o000, 0o023,   // zone 0, each started 2 beyond 10: 19
    0o000, 0o000, 0o057,   // zone 1, each started 2 beyond 10: 47
    0o000, 0o000, 0o212,   // zone 2, each started 2 beyond 10: 138
    0o000, 0o002, 0o217,   // zone 3, each started 2 beyond 10: 655
];

// What both shippers price.
#[rattlefmt::skip]
pub const SHIPMENTS: [Shipment; 12] = [
    Shipment { zone: 0, weight: 3 },
    Shipment { zone: 1, weight: 27 },
    Shipment { zone: 3, weight: 60 },
    Shipment { zone: 2, weight: 50 },
    Shipment { zone: 0, weight: 10 },
    Shipment { zone: 1, weight: 99 },
    Shipment { zone: 2, weight: 11 },
    Shipment { zone: 3, weight: 255 },
    Shipment { zone: 1, weight: 100 },
    Shipment { zone: 0, weight: 186 },
    Shipment { zone: 2, weight: 25 },
    Shipment { zone: 3, weight: 1 },
];
