//! Whether blocks of an object are allocated.
ghost use Rattle.std.specs.Prelude.{◌≡◌, ◌↔◌, ◌<◌, false, length, IsTrue};
ghost use Rattle.nodes.specs.Copies.{HasBlock, HasNoBlockOn, HasNoBlockAt};

use super::Nodes;

impl Nodes {
    /// Returns whether some block is allocated that has a part of an object. It looks at each block.
    pub fn holds(&self, id: u64) -> bool
        ensures { IsTrue result ↔ HasBlock self.now id }
    {
        for page in 0..self.pages() {
            if self.page_holds(page, id) {
                return true;
            }
        }
        false
    }

    /// Returns whether a block of this page has a part of the object.
    fn page_holds(&self, page: usize, id: u64) -> bool
        requires { page < length self.now.pages }
        ensures yes { IsTrue result → HasBlock self.now id }
        ensures no { result ≡ false → HasNoBlockOn self.now id page }
    {
        let Some(class) = self.table.class(page) else {
            return false;
        };
        for index in 0..class.blocks_per_page() as usize {
            if self.place_holds(page, index, id) {
                return true;
            }
        }
        false
    }

    /// Returns whether this block of a page has a part of the object.
    fn place_holds(&self, page: usize, index: usize, id: u64) -> bool
        requires { page < length self.now.pages }
        ensures yes { IsTrue result → HasBlock self.now id }
        ensures no { result ≡ false → HasNoBlockAt self.now id page index }
    {
        match self.allocated_block(page, index) {
            Some(block) => self.identity(block) == id,
            None => false,
        }
    }
}
