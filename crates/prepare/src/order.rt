// A list that forms one tree, with its arrays by preorder position.
ghost use Rattle.std.specs.Prelude.{◌≡◌, ◌≤◌, length};
ghost use Rattle.base.specs.Limits.{most_entries};
ghost use Rattle.judge.specs.Verdict.{verdict};
ghost use Rattle.prepare.specs.Arrays.{order_of, depths_of, aboves_of};

// ORDER, DEPTH and ABOVE by position: the entry there, its depth, and the position of the entry above, or the top mark. That the list forms one tree is said
// by what judging answers, so that there is one proof of it.
#[derive(Clone, Copy)]
pub(crate) struct Preorder<'a> {
    pub(crate) parents: &'a [u32],
    pub(crate) order: &'a [u32],
    pub(crate) depths: &'a [u32],
    pub(crate) aboves: &'a [u32],
    ghost few: { length parents.now ≤ most_entries },
    ghost judged: { (verdict parents.now).number ≡ 0 },
    ghost orders: { order.now ≡ order_of parents.now },
    ghost deep: { depths.now ≡ depths_of parents.now },
    ghost over: { aboves.now ≡ aboves_of parents.now },
}
