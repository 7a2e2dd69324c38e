// How many calls repeat an earlier one.
ghost use Rattle.std.specs.Prelude.{◌≡◌};
ghost use Rattle.lines.specs.Repeats.{is_call, seen, is_repeat, repeats};

use crate::calls::Calls;

impl Calls<'_> {
    // Whether the call `j` is accepted, with the code and the row.
    #[tactic(auto, unfolding(crate::specs::Repeats::is_call, crate::specs::Repeats::same))]
    fn is_call(&self, j: u32, code: u8, row: u32) -> bool
        ensures { result ≡ is_call self.now.codes.now self.now.answers.now j code row }
    {
        self.answer_word(j, 0) == 0 && code == self.code(j) && row == self.answer_word(j, 1)
    }

    // Whether the call `i` is accepted and repeats an earlier one.
    #[tactic(auto, unfolding(crate::specs::Repeats::is_repeat))]
    fn is_repeat(&self, i: u32) -> bool
        ensures { result ≡ is_repeat self.now.codes.now self.now.answers.now i }
    {
        self.answer_word(i, 0) == 0 && self.seen(i, self.code(i), self.answer_word(i, 1))
    }

    // Whether one of the calls before `i` is accepted, with the code and the row. The newest is tried first.
    fn seen(&self, i: u32, code: u8, row: u32) -> bool
        ensures { result ≡ seen self.now.codes.now self.now.answers.now code row i }
    {
        for j in (0..i).rev() {
            if self.is_call(j, code, row) {
                return true;
            }
        }
        false
    }

    // How many of the calls repeat an earlier one.
    pub fn repeats(&self, calls: u32) -> u32
        ensures { result ≡ repeats self.now.codes.now self.now.answers.now calls }
    {
        let mut n = 0;
        for i in 0..calls {
            if self.is_repeat(i) {
                n += 1;
            }
        }
        n
    }
}
