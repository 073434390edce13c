// A search: the cells to follow stand in an order, and each cell that is found is marked and put
// behind them. So each is followed once, whichever way the programs run.
ghost use Rattle.std.specs.Prelude.{◌≡◌, ◌+◌, ◌≤◌, take};
ghost use Rattle.cellmap.specs.Marks.{unmarked};
ghost use Rattle.reachability.specs.Search.{Searched, Waiting};
ghost use Rattle.reachability.specs.Search.{marks_with, order_with, count_with};

use crate::ways::{PLACES, jump_place, next_place};
use cellmap::CellMap;
use instruction::Cell;

// The map, and the cells to follow: the first `count` of the order, which has room for each cell
// without a mark.
#[derive(Drop)]
pub struct Search {
    pub used: CellMap,
    pub order: [u8; 131],
    pub count: usize,
    pub ghost room: { count + unmarked used ≤ 131 },
}

impl Search {
    // A place that is a cell's and has no mark is marked and put into the order.
    #[tactic(auto, unfolding(crate::specs::Search::is_new, laws::specs::Tests::choose, laws::specs::Tests::both))]
    pub fn find(&mut self, k: usize)
        ensures count { self.new.count ≡ count_with self.old.used self.old.count k }
        ensures marks { self.new.used ≡ marks_with self.old.used k }
        ensures order { self.new.order ≡
            order_with self.old.used self.old.order self.old.count k }
    {
        if PLACES <= k || self.used[k] {
            return;
        }
        self.used[k] = true;
        self.order[self.count] = k as u8;
        self.count += 1;
    }

    // The map with all that is reached from the cells to follow.
    pub fn follow(mut self, cells: &[Cell; 131]) -> CellMap
        requires { Waiting self.used self.order self.count }
        ensures { Searched cells.now (take self.count self.order) self.used result }
    {
        let mut i: usize = 0;
        // The cells to follow become more while they are followed.
        while i < self.count {
            let cell = cells[self.order[i] as usize];
            self.find(next_place(cell));
            self.find(jump_place(cell));
            i += 1;
        }
        self.used
    }
}
