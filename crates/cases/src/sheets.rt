// Sheets and their whole answers: the worked sheet, and after it examples of refusals, by their numbers.
use crate::cases::Case;

pub const SHEETS: &[Case] = &[
    Case {
        what: "the worked sheet",
        sheet: b"I 2 1\n\
            N 3020 0\n\
            G 0 u\n\
            O 0 u\n\
            E 3020 0\n\
            G 0 d\n\
            F 0 u\n\
            R 0 u\n\
            H 0 u\n\
            T 3020 0\n\
            L 3020 0\n\
            D 0 u\n\
            S 0 u\n\
            D 0 u\n\
            Z 0 u\n\
            G 1 u\n\
            X\n",
        answer: b"turn 2 1\n\
            2 ok\n\
            3 ok\n\
            4 ok\n\
            5 ok\n\
            6 no 302 0 2\n\
            7 ok\n\
            8 ok\n\
            9 ok\n\
            10 ok\n\
            11 ok\n\
            12 no 211\n\
            13 ok\n\
            14 ok\n\
            15 ok\n\
            16 ok\n\
            17 no 103 0\n\
            s 0 0 0 1 1 0\n\
            s 1 1 0 1 0 0\n",
    },
    Case {
        what: "101: 1,501 lines",
        sheet: &[b'\n'; 1_501],
        answer: b"no 101\n",
    },
    Case {
        what: "101: 16,001 bytes",
        sheet: &[b'X'; 16_001],
        answer: b"no 101\n",
    },
    Case {
        what: "102: the heading I 17 0",
        sheet: b"I 17 0\n",
        answer: b"no 102\n",
    },
    Case {
        what: "102: the empty sheet",
        sheet: b"",
        answer: b"no 102\n",
    },
    Case {
        what: "102: 1,500 lines",
        sheet: &[b'\n'; 1_500],
        answer: b"no 102\n",
    },
    Case {
        what: "102: 16,000 bytes",
        sheet: &[b'X'; 16_000],
        answer: b"no 102\n",
    },
    Case {
        what: "103: X",
        sheet: b"I 2 1\nX\n",
        answer: b"turn 2 1\n2 no 103 0\ns 0 0 0 0 0 0\ns 1 0 0 0 0 0\n",
    },
    Case {
        what: "103: N 100000 0",
        sheet: b"I 2 1\nN 100000 0\n",
        answer: b"turn 2 1\n2 no 103 7\ns 0 0 0 0 0 0\ns 1 0 0 0 0 0\n",
    },
    Case {
        what: "203: G 2 u",
        sheet: b"I 2 1\nG 2 u\n",
        answer: b"turn 2 1\n2 no 203\ns 0 0 0 0 0 0\ns 1 0 0 0 0 0\n",
    },
    Case {
        what: "203: G 15 u and G 16 u of 16 sections",
        sheet: b"I 16 8\nG 15 u\nG 16 u\n",
        answer: b"turn 16 8\n\
            2 ok\n\
            3 no 203\n\
            s 0 0 0 0 0 0\n\
            s 1 0 0 0 0 0\n\
            s 2 0 0 0 0 0\n\
            s 3 0 0 0 0 0\n\
            s 4 0 0 0 0 0\n\
            s 5 0 0 0 0 0\n\
            s 6 0 0 0 0 0\n\
            s 7 0 0 0 0 0\n\
            s 8 0 0 0 0 0\n\
            s 9 0 0 0 0 0\n\
            s 10 0 0 0 0 0\n\
            s 11 0 0 0 0 0\n\
            s 12 0 0 0 0 0\n\
            s 13 0 0 0 0 0\n\
            s 14 0 0 0 0 0\n\
            s 15 1 0 1 0 0\n",
    },
    Case {
        what: "204: N 5 3",
        sheet: b"I 2 1\nN 5 3\n",
        answer: b"turn 2 1\n2 no 204\ns 0 0 0 0 0 0\ns 1 0 0 0 0 0\n",
    },
    Case {
        what: "205: N 0 0",
        sheet: b"I 2 1\nN 0 0\n",
        answer: b"turn 2 1\n2 no 205\ns 0 0 0 0 0 0\ns 1 0 0 0 0 0\n",
    },
    Case {
        what: "206: N 5 0 twice",
        sheet: b"I 2 1\nN 5 0\nN 5 0\n",
        answer: b"turn 2 1\n2 ok\n3 no 206\ns 0 0 0 0 0 0\ns 1 0 0 0 0 0\n",
    },
    Case {
        what: "208: W 9",
        sheet: b"I 2 1\nW 9\n",
        answer: b"turn 2 1\n2 no 208\ns 0 0 0 0 0 0\ns 1 0 0 0 0 0\n",
    },
    Case {
        what: "209: N 5 0, E 5 1",
        sheet: b"I 2 1\nN 5 0\nE 5 1\n",
        answer: b"turn 2 1\n2 ok\n3 no 209\ns 0 0 0 0 0 0\ns 1 0 0 0 0 0\n",
    },
    Case {
        what: "210: F 0 u",
        sheet: b"I 2 1\nF 0 u\n",
        answer: b"turn 2 1\n2 no 210\ns 0 0 0 0 0 0\ns 1 0 0 0 0 0\n",
    },
    Case {
        what: "211: S 0 u",
        sheet: b"I 2 1\nS 0 u\n",
        answer: b"turn 2 1\n2 no 211\ns 0 0 0 0 0 0\ns 1 0 0 0 0 0\n",
    },
    Case {
        what: "212: D 0 u",
        sheet: b"I 2 1\nD 0 u\n",
        answer: b"turn 2 1\n2 no 212\ns 0 0 0 0 0 0\ns 1 0 0 0 0 0\n",
    },
    Case {
        what: "213: U 0 u with a train inside",
        sheet: b"I 2 1\nN 5 0\nG 0 u\nO 0 u\nE 5 0\nU 0 u\n",
        answer: b"turn 2 1\n\
            2 ok\n\
            3 ok\n\
            4 ok\n\
            5 ok\n\
            6 no 213\n\
            s 0 2 5 1 0 0\n\
            s 1 0 0 0 0 0\n",
    },
    Case {
        what: "302: G 0 u twice",
        sheet: b"I 2 1\nG 0 u\nG 0 u\n",
        answer: b"turn 2 1\n2 ok\n3 no 302 0 1\ns 0 1 0 1 0 0\ns 1 0 0 0 0 0\n",
    },
    Case {
        what: "303: O 0 u",
        sheet: b"I 2 1\nO 0 u\n",
        answer: b"turn 2 1\n2 no 303 0 0\ns 0 0 0 0 0 0\ns 1 0 0 0 0 0\n",
    },
    Case {
        what: "304: G 0 u, O 0 u twice",
        sheet: b"I 2 1\nG 0 u\nO 0 u\nO 0 u\n",
        answer: b"turn 2 1\n2 ok\n3 ok\n4 no 304 0 2\ns 0 2 0 1 0 0\ns 1 0 0 0 0 0\n",
    },
];
