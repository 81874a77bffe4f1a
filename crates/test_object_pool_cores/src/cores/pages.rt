//! Rows of a page of one owner. Id `i` of a new page has the value `100 + i`.
use crate::assert_equal::assert_equal;
use crate::values::parted;
use object_pool_cores::sequential::CorePage;
use pool_parts::PullError;
use pool_parts::clean::AnyValue;
use pool_parts::page::PageId;
use rows::row::{Command, Player, first_difference};
use rows::said::Said;
use std::alloc::Global;
use std::cell::Cell;
use std::process::Abort;

/// One who takes and frees ids by commands.
#[derive(Drop)]
struct PagePlayer {
    page: CorePage<u32, AnyValue>,
}

impl Player for PagePlayer {
    /// A page that gives no id has to say that it is full, and one that gives some that it isn't.
    fn play(&mut self, command: Command) -> Said {
        let id = PageId::try_from(command.numbers[0]).unwrap_or(PageId::MAX);
        let (is_full, is_out) = (self.page.is_full(), self.page.is_out(id));
        match command.word {
            "alloc" => match self.page.alloc() {
                Some((id, value)) if !is_full => {
                    Said::of("id").and(id as usize).and(value as usize)
                }
                None if is_full => Said::of("full"),
                _ => Said::of("full or not"),
            },
            "free" if is_out => {
                self.page.free(id, 100 + u32::from(id));
                Said::of("freed")
            }
            "is_full" if is_full => Said::of("full"),
            "is_full" => Said::of("not full"),
            "word" => Said::of("word").and(self.page.get_mask() as usize),
            _ => Said::of("not out"),
        }
    }
}

/// Creates a page of the values 100 to 131.
fn numbered_page(alloc: Global) -> Result<CorePage<u32, AnyValue>, PullError> {
    let next = Cell::new(99u32);
    CorePage::new(
        alloc,
        &|| {
            next.set(next.get().saturating_add(1));
            Some(next.get())
        },
    )
}

/// Plays a row with a new page.
fn plays(rt: &(impl Abort + AllocGlobal), row: &'static str) {
    let page = numbered_page(rt.alloc()).expect(rt, "a page is made");
    let (commands, answers) = parted(row);
    let difference = first_difference(&mut PagePlayer { page }, commands, answers);
    assert_equal(rt, difference, None);
}

#[test]
fn a_new_page_has_each_id_free(rt: HostRuntime) {
    let row = "is_full; word; free 0+*33 => not full; word 4294967295; not out";
    plays(&rt, row);
}

#[test]
fn the_word_follows_what_is_taken_and_freed(rt: HostRuntime) {
    let row = "alloc; word; alloc; word; alloc; word; free 1; word; free 0; word; free 2; word => \
               id 0 100; word 4294967294; id 1 101; word 4294967292; id 2 102; word 4294967288; \
               freed; word 4294967290; freed; word 4294967291; freed; word 4294967295";
    plays(&rt, row);
}

#[test]
fn each_id_is_taken_in_order_until_the_page_is_full(rt: HostRuntime) {
    let row = "alloc*32; is_full; word; alloc; free 31; free 7; alloc; alloc => id 0+ 100+; full; \
               word 0; full; freed; freed; id 7 107; id 31 131";
    plays(&rt, row);
}
