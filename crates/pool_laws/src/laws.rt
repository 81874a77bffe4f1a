//! Legal histories of pages, and the legal history of one pool that grows.
ghost use Rattle.std.specs.Prelude.{◌≡◌, ◌<◌, ◌≤◌, ℕ, Option, Some, List, map, length};
ghost use Rattle.pool_parts.specs.declared.page.word.TheConstants.{PAGE_ITEMS};
ghost use Rattle.pool_parts.specs.Ledger.{History, IsLegal, IsPrefixOf, WasFullBetween};
ghost use Rattle.pool_world.specs.Pool.{AllowsPages, IsSame, Pool};
ghost use Rattle.pool_world.specs.Run.{Act, AreLegalActs, Run, pages_of, pool_of};
ghost use Rattle.pool_laws.specs.Steps.{Step, AreNames, AreInOrder, AreLegalPages, merged};
ghost use Rattle.pool_laws.specs.Steps.{history_of, linked, values_of};
ghost use Rattle.pool_laws.specs.Parts.{MergeAgain, parted};
ghost use Rattle.pool_laws.specs.Names.{pool_user};
ghost use Rattle.pool_laws.specs.Premises.{IsNoPool};
ghost use Rattle.pool_laws.specs.Moves.{AreByHolders, LeadTo};
ghost use Rattle.pool_laws.specs.SameRun.{AreLeft, HasRun};
ghost use Rattle.pool_laws.specs.Growth.{WasPageOut};
ghost use Rattle.pool_laws.specs.Together.{ArePagesOf};

use linear_pools::clean::Clean;
use linear_pools::closures::Reset;

/// Shows that legal histories of pages, however their steps are interleaved, are one legal history
/// of a pool that grows, if each operation on a page comes after the page was linked.
pub fn merge<T>()
    ensures { (name : ℕ → ℕ → ℕ) (first : List T) (steps : List (Step T))
        → AreNames name → length first ≡ PAGE_ITEMS → AreInOrder steps → AreLegalPages first steps
        → AreLegalActs first (merged name steps) }
{}

/// Shows that the users of all pages can have names of their own.
pub fn names()
    ensures { AreNames pool_user }
{}

/// Shows that `merge` is false without two of its premises: that a page is used only after its link
/// (`order`), and that users of two pages have different names (`names`).
pub fn premises()
    ensures order { (first : List ℕ) × (steps : List (Step ℕ)) × IsNoPool pool_user first steps }
    ensures names { (first : List ℕ) × (steps : List (Step ℕ)) × AreInOrder steps
        × IsNoPool (λ page user. user) first steps }
{}

/// Shows that each legal history of a pool that grows falls into legal histories of its pages, in
/// which each operation on a page comes after the page was linked.
pub fn part<T>()
    ensures order { (first : List T) (acts : List (Act T)) → length first ≡ PAGE_ITEMS
        → AreLegalActs first acts → AreInOrder (parted acts) }
    ensures pages { (first : List T) (acts : List (Act T)) → length first ≡ PAGE_ITEMS
        → AreLegalActs first acts → AreLegalPages first (parted acts) }
    ensures again { (first : List T) (acts : List (Act T)) → MergeAgain first acts }
{}

/// Shows that legal histories of any number of pages are those of the pages of one pool.
pub fn together<T>()
    ensures { (name : ℕ → ℕ → ℕ) (values : ℕ → List T) (histories : ℕ → History T) (count : ℕ)
        → AreNames name → ((page : ℕ) → length (values page) ≡ PAGE_ITEMS)
        → ((page : ℕ) → IsLegal (map Some (values page)) (histories page))
        → (steps : List (Step T)) × ArePagesOf name values histories count steps }
{}

/// Shows that each run of the main theorem is a legal history of one pool that grows, and that each
/// such history has a run with the same operations, if a reset may leave the values it returned.
pub fn runs<T, R: Reset<T, K>, K: Clean<T>>()
    ensures is_pool { (reset : R) (limit : Option ℕ) (first : List T) (acts : List (Act T))
        → Run (R.leaves reset) limit first acts → AreLegalActs first acts }
    ensures has_run { (reset : R) (limit : Option ℕ) (first : List T) (acts : List (Act T))
        → AreLegalActs first acts → AreLeft (R.leaves reset) acts
        → AllowsPages limit (pages_of acts) → HasRun (R.leaves reset) limit first acts }
{}

/// Shows that a legal history of one pool that grows is a list of moves of the sequential pool,
/// each by who holds the number, and that such moves are a legal history.
pub fn moves<T>()
    ensures leads { (first : List T) (acts : List (Act T)) → length first ≡ PAGE_ITEMS
        → AreLegalActs first acts → AreByHolders acts × LeadTo first acts (pool_of first acts) }
    ensures led { (first : List T) (acts : List (Act T)) (pool : Pool T)
        → length first ≡ PAGE_ITEMS → AreByHolders acts → LeadTo first acts pool
        → AreLegalActs first acts × IsSame pool (pool_of first acts) }
{}

/// Shows that a page whose items were all out at some place of its history was so at some place of
/// the pool's.
pub fn full_page<T>()
    ensures { (name : ℕ → ℕ → ℕ) (first : List T) (steps : List (Step T)) (page : ℕ)
        (from to : History T)
        → AreNames name → length first ≡ PAGE_ITEMS
        → AreInOrder steps → AreLegalPages first steps → page < linked steps
        → IsPrefixOf to (history_of page steps)
        → WasFullBetween (map Some (values_of first page steps)) from to PAGE_ITEMS
        → WasPageOut name first steps page from to }
{}
