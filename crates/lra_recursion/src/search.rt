//! Which places are reached from one, by rows of further places: a worklist.

ghost use Rattle.std.specs.Prelude.{◌↔◌, ◌∷◌, [], ℕ, map, IfOk};
ghost use Rattle.lra_recursion.specs.Search.{IsReachableFrom, IsVisited, MarksVisited};

use std::alloc::{AllocError, Global};

/// A search: which places are met, and those of them whose rows are still to be gone through.
#[derive(Drop)]
struct Search {
    visited: Vec<bool>,
    left: Vec<usize>,
}

impl Search {
    /// Meets a place.
    fn visit(&mut self, place: usize) -> Result<(), AllocError>
        ensures { IfOk result
            (λ _. MarksVisited (place ∷ []) self.old.visited.items self.old.left.items self.new.visited.items
            self.new.left.items) }
    {
        if place < self.visited.len() && !self.visited[place] {
            self.left.push(place)?;
            self.visited[place] = true;
        }
        Ok(())
    }

    /// Meets places.
    fn visit_all(&mut self, places: &[usize]) -> Result<(), AllocError>
        ensures { IfOk result
            (λ _. MarksVisited places.now self.old.visited.items self.old.left.items self.new.visited.items
            self.new.left.items) }
    {
        'places: for place in places {
            self.visit(*place)?;
        }
        Ok(())
    }
}

/// For each place whether it is reached.
pub fn reached(alloc: Global, rows: &[Vec<usize>], start: usize) -> Result<Vec<bool>, AllocError>
    ensures { IfOk result
        (λ met. (k : ℕ) → IsVisited met.items k ↔ IsReachableFrom (map (λ row. row.items) rows.now) start k) }
{
    let met = vec![in alloc; false; rows.len()]?;
    let mut search = Search {
        visited: met,
        left: Vec::new(alloc),
    };
    search.visit(start)?;
    'left: while let Some(place) = search.left.pop() {
        search.visit_all(&rows[place])?;
    }
    Ok(search.visited)
}
