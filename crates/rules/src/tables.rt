// The tables of rules, judgments and nodes. The functions of lib.rt read them, and their proofs compare each with its rule.
// Written by tools/written.py from tools/language.py; `python3 tools/written.py` makes it again.
use crate::Sort::{Context, Interval, Number, Term};
use crate::{Part, Sort};

// A rule: its name, and the kind of judgment that it concludes.
#[derive(Clone, Copy)]
pub struct Rule {
    pub name: &'static [u8],
    pub kind: u32,
}

// A judgment: its name, and the sorts of its arguments.
#[derive(Clone, Copy)]
pub struct Judgment {
    pub name: &'static [u8],
    pub sorts: &'static [Sort],
}

// A node: its name, and the parts that its quote shows.
#[derive(Clone, Copy)]
pub struct Node {
    pub name: &'static [u8],
    pub parts: &'static [Part],
}

// What is read past the end of each table.
pub const NO_RULE: Rule = Rule {
    name: b"",
    kind: 255,
};

pub const NO_JUDGMENT: Judgment = Judgment {
    name: b"",
    sorts: &[],
};

pub const NO_NODE: Node = Node {
    name: b"",
    parts: &[],
};

// The rules by their number.
pub static RULES: [Rule; 126] = [
    Rule {
        name: b"ctx.nil",
        kind: 0,
    },
    Rule {
        name: b"ctx.cons",
        kind: 0,
    },
    Rule {
        name: b"dshiftctx.nil",
        kind: 1,
    },
    Rule {
        name: b"dshiftctx.cons",
        kind: 1,
    },
    Rule {
        name: b"lookup.z",
        kind: 2,
    },
    Rule {
        name: b"lookup.s",
        kind: 2,
    },
    Rule {
        name: b"lt.z",
        kind: 3,
    },
    Rule {
        name: b"lt.s",
        kind: 3,
    },
    Rule {
        name: b"le.z",
        kind: 4,
    },
    Rule {
        name: b"le.s",
        kind: 4,
    },
    Rule {
        name: b"max.z",
        kind: 5,
    },
    Rule {
        name: b"max.sz",
        kind: 5,
    },
    Rule {
        name: b"max.ss",
        kind: 5,
    },
    Rule {
        name: b"interval.0",
        kind: 6,
    },
    Rule {
        name: b"interval.1",
        kind: 6,
    },
    Rule {
        name: b"interval.dim",
        kind: 6,
    },
    Rule {
        name: b"interval.neg",
        kind: 6,
    },
    Rule {
        name: b"interval.meet",
        kind: 6,
    },
    Rule {
        name: b"interval.join",
        kind: 6,
    },
    Rule {
        name: b"ishift.0",
        kind: 7,
    },
    Rule {
        name: b"ishift.1",
        kind: 7,
    },
    Rule {
        name: b"ishift.dim.lt",
        kind: 7,
    },
    Rule {
        name: b"ishift.dim.ge",
        kind: 7,
    },
    Rule {
        name: b"ishift.neg",
        kind: 7,
    },
    Rule {
        name: b"ishift.meet",
        kind: 7,
    },
    Rule {
        name: b"ishift.join",
        kind: 7,
    },
    Rule {
        name: b"isubst.0",
        kind: 8,
    },
    Rule {
        name: b"isubst.1",
        kind: 8,
    },
    Rule {
        name: b"isubst.dim.hit",
        kind: 8,
    },
    Rule {
        name: b"isubst.dim.lt",
        kind: 8,
    },
    Rule {
        name: b"isubst.dim.gt",
        kind: 8,
    },
    Rule {
        name: b"isubst.neg",
        kind: 8,
    },
    Rule {
        name: b"isubst.meet",
        kind: 8,
    },
    Rule {
        name: b"isubst.join",
        kind: 8,
    },
    Rule {
        name: b"shift.u",
        kind: 9,
    },
    Rule {
        name: b"shift.nat",
        kind: 9,
    },
    Rule {
        name: b"shift.zero",
        kind: 9,
    },
    Rule {
        name: b"shift.v.lt",
        kind: 9,
    },
    Rule {
        name: b"shift.v.ge",
        kind: 9,
    },
    Rule {
        name: b"shift.pi",
        kind: 9,
    },
    Rule {
        name: b"shift.lam",
        kind: 9,
    },
    Rule {
        name: b"shift.app",
        kind: 9,
    },
    Rule {
        name: b"shift.path",
        kind: 9,
    },
    Rule {
        name: b"shift.plam",
        kind: 9,
    },
    Rule {
        name: b"shift.papp",
        kind: 9,
    },
    Rule {
        name: b"subst.u",
        kind: 10,
    },
    Rule {
        name: b"subst.nat",
        kind: 10,
    },
    Rule {
        name: b"subst.zero",
        kind: 10,
    },
    Rule {
        name: b"subst.v.hit",
        kind: 10,
    },
    Rule {
        name: b"subst.v.lt",
        kind: 10,
    },
    Rule {
        name: b"subst.v.gt",
        kind: 10,
    },
    Rule {
        name: b"subst.pi",
        kind: 10,
    },
    Rule {
        name: b"subst.lam",
        kind: 10,
    },
    Rule {
        name: b"subst.app",
        kind: 10,
    },
    Rule {
        name: b"subst.path",
        kind: 10,
    },
    Rule {
        name: b"subst.plam",
        kind: 10,
    },
    Rule {
        name: b"subst.papp",
        kind: 10,
    },
    Rule {
        name: b"dshift.u",
        kind: 11,
    },
    Rule {
        name: b"dshift.nat",
        kind: 11,
    },
    Rule {
        name: b"dshift.zero",
        kind: 11,
    },
    Rule {
        name: b"dshift.v",
        kind: 11,
    },
    Rule {
        name: b"dshift.pi",
        kind: 11,
    },
    Rule {
        name: b"dshift.lam",
        kind: 11,
    },
    Rule {
        name: b"dshift.app",
        kind: 11,
    },
    Rule {
        name: b"dshift.path",
        kind: 11,
    },
    Rule {
        name: b"dshift.plam",
        kind: 11,
    },
    Rule {
        name: b"dshift.papp",
        kind: 11,
    },
    Rule {
        name: b"dsubst.u",
        kind: 12,
    },
    Rule {
        name: b"dsubst.nat",
        kind: 12,
    },
    Rule {
        name: b"dsubst.zero",
        kind: 12,
    },
    Rule {
        name: b"dsubst.v",
        kind: 12,
    },
    Rule {
        name: b"dsubst.pi",
        kind: 12,
    },
    Rule {
        name: b"dsubst.lam",
        kind: 12,
    },
    Rule {
        name: b"dsubst.app",
        kind: 12,
    },
    Rule {
        name: b"dsubst.path",
        kind: 12,
    },
    Rule {
        name: b"dsubst.plam",
        kind: 12,
    },
    Rule {
        name: b"dsubst.papp",
        kind: 12,
    },
    Rule {
        name: b"type.u",
        kind: 13,
    },
    Rule {
        name: b"type.nat",
        kind: 13,
    },
    Rule {
        name: b"type.zero",
        kind: 13,
    },
    Rule {
        name: b"type.v",
        kind: 13,
    },
    Rule {
        name: b"type.pi",
        kind: 13,
    },
    Rule {
        name: b"type.lam",
        kind: 13,
    },
    Rule {
        name: b"type.app",
        kind: 13,
    },
    Rule {
        name: b"type.path",
        kind: 13,
    },
    Rule {
        name: b"type.plam",
        kind: 13,
    },
    Rule {
        name: b"type.papp",
        kind: 13,
    },
    Rule {
        name: b"type.conv",
        kind: 13,
    },
    Rule {
        name: b"eq.refl",
        kind: 14,
    },
    Rule {
        name: b"eq.sym",
        kind: 14,
    },
    Rule {
        name: b"eq.trans",
        kind: 14,
    },
    Rule {
        name: b"eq.beta",
        kind: 14,
    },
    Rule {
        name: b"eq.pbeta",
        kind: 14,
    },
    Rule {
        name: b"eq.p0",
        kind: 14,
    },
    Rule {
        name: b"eq.p1",
        kind: 14,
    },
    Rule {
        name: b"type.sigma",
        kind: 13,
    },
    Rule {
        name: b"type.pair",
        kind: 13,
    },
    Rule {
        name: b"type.fst",
        kind: 13,
    },
    Rule {
        name: b"type.snd",
        kind: 13,
    },
    Rule {
        name: b"eq.fst-beta",
        kind: 14,
    },
    Rule {
        name: b"eq.snd-beta",
        kind: 14,
    },
    Rule {
        name: b"shift.sigma",
        kind: 9,
    },
    Rule {
        name: b"shift.pair",
        kind: 9,
    },
    Rule {
        name: b"shift.fst",
        kind: 9,
    },
    Rule {
        name: b"shift.snd",
        kind: 9,
    },
    Rule {
        name: b"subst.sigma",
        kind: 10,
    },
    Rule {
        name: b"subst.pair",
        kind: 10,
    },
    Rule {
        name: b"subst.fst",
        kind: 10,
    },
    Rule {
        name: b"subst.snd",
        kind: 10,
    },
    Rule {
        name: b"dshift.sigma",
        kind: 11,
    },
    Rule {
        name: b"dshift.pair",
        kind: 11,
    },
    Rule {
        name: b"dshift.fst",
        kind: 11,
    },
    Rule {
        name: b"dshift.snd",
        kind: 11,
    },
    Rule {
        name: b"dsubst.sigma",
        kind: 12,
    },
    Rule {
        name: b"dsubst.pair",
        kind: 12,
    },
    Rule {
        name: b"dsubst.fst",
        kind: 12,
    },
    Rule {
        name: b"dsubst.snd",
        kind: 12,
    },
    Rule {
        name: b"iend.0",
        kind: 15,
    },
    Rule {
        name: b"iend.1",
        kind: 15,
    },
    Rule {
        name: b"iend.neg",
        kind: 15,
    },
    Rule {
        name: b"iend.meet",
        kind: 15,
    },
    Rule {
        name: b"iend.join",
        kind: 15,
    },
    Rule {
        name: b"eq.p0-val",
        kind: 14,
    },
    Rule {
        name: b"eq.p1-val",
        kind: 14,
    },
    Rule {
        name: b"eq.app-cong",
        kind: 14,
    },
    Rule {
        name: b"eq.papp-cong",
        kind: 14,
    },
];

// The judgments by their kind.
pub static JUDGMENTS: [Judgment; 16] = [
    Judgment {
        name: b"ctx",
        sorts: &[Number, Context],
    },
    Judgment {
        name: b"dshiftctx",
        sorts: &[Context, Number, Context],
    },
    Judgment {
        name: b"lookup",
        sorts: &[Context, Number, Term],
    },
    Judgment {
        name: b"lt",
        sorts: &[Number, Number],
    },
    Judgment {
        name: b"le",
        sorts: &[Number, Number],
    },
    Judgment {
        name: b"max",
        sorts: &[Number, Number, Number],
    },
    Judgment {
        name: b"interval",
        sorts: &[Number, Interval],
    },
    Judgment {
        name: b"ishift",
        sorts: &[Interval, Number, Interval],
    },
    Judgment {
        name: b"isubst",
        sorts: &[Interval, Number, Interval, Interval],
    },
    Judgment {
        name: b"shift",
        sorts: &[Term, Number, Term],
    },
    Judgment {
        name: b"subst",
        sorts: &[Term, Number, Term, Term],
    },
    Judgment {
        name: b"dshift",
        sorts: &[Term, Number, Term],
    },
    Judgment {
        name: b"dsubst",
        sorts: &[Term, Number, Interval, Term],
    },
    Judgment {
        name: b"has",
        sorts: &[Number, Context, Term, Term],
    },
    Judgment {
        name: b"eq",
        sorts: &[Number, Context, Term, Term, Term],
    },
    Judgment {
        name: b"iend",
        sorts: &[Interval, Interval],
    },
];

// Parts by their sort and the word of the cell that holds them.
const NUMBER_1: Part = Part {
    sort: Number,
    word: 1,
};

const TERM_1: Part = Part {
    sort: Term,
    word: 1,
};

const TERM_2: Part = Part {
    sort: Term,
    word: 2,
};

const TERM_3: Part = Part {
    sort: Term,
    word: 3,
};

const INTERVAL_1: Part = Part {
    sort: Interval,
    word: 1,
};

const INTERVAL_2: Part = Part {
    sort: Interval,
    word: 2,
};

const CONTEXT_2: Part = Part {
    sort: Context,
    word: 2,
};

// The nodes by their kind.
pub static NODES: [Node; 34] = [
    NO_NODE,
    Node {
        name: b"u",
        parts: &[NUMBER_1],
    },
    Node {
        name: b"v",
        parts: &[NUMBER_1],
    },
    Node {
        name: b"nat",
        parts: &[],
    },
    Node {
        name: b"zero",
        parts: &[],
    },
    Node {
        name: b"pi",
        parts: &[TERM_1, TERM_2],
    },
    Node {
        name: b"lam",
        parts: &[TERM_2],
    },
    Node {
        name: b"app",
        parts: &[TERM_1, TERM_2],
    },
    Node {
        name: b"path",
        parts: &[TERM_1, TERM_2, TERM_3],
    },
    Node {
        name: b"plam",
        parts: &[TERM_2],
    },
    Node {
        name: b"papp",
        parts: &[TERM_1, INTERVAL_2],
    },
    Node {
        name: b"sigma",
        parts: &[TERM_1, TERM_2],
    },
    Node {
        name: b"pair",
        parts: &[TERM_2, TERM_3],
    },
    Node {
        name: b"fst",
        parts: &[TERM_1],
    },
    Node {
        name: b"snd",
        parts: &[TERM_1],
    },
    NO_NODE,
    Node {
        name: b"i0",
        parts: &[],
    },
    Node {
        name: b"i1",
        parts: &[],
    },
    Node {
        name: b"dim",
        parts: &[NUMBER_1],
    },
    Node {
        name: b"neg",
        parts: &[INTERVAL_1],
    },
    Node {
        name: b"meet",
        parts: &[INTERVAL_1, INTERVAL_2],
    },
    Node {
        name: b"join",
        parts: &[INTERVAL_1, INTERVAL_2],
    },
    NO_NODE,
    NO_NODE,
    NO_NODE,
    NO_NODE,
    NO_NODE,
    NO_NODE,
    NO_NODE,
    NO_NODE,
    NO_NODE,
    NO_NODE,
    Node {
        name: b"nil",
        parts: &[],
    },
    Node {
        name: b"cons",
        parts: &[TERM_1, CONTEXT_2],
    },
];
