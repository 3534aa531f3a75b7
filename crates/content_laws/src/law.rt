//! Laws: the whole contents of a run's channels.

ghost use Rattle.std.specs.Prelude.{ℕ, ◌<◌, ◌≤◌, ◌≡◌, Bool, true, false, Some, List, length};
ghost use Rattle.std.specs.List.{sum_by, AllPass};
ghost use Rattle.std.specs.List.Sorted.{IsPermutation};
ghost use Rattle.run_journal.specs.declared.entry.Entry.{Entry};
ghost use Rattle.task_shape.specs.Shape.{Shape, IsShape, task_at, has, is_group, receives_at, width};
ghost use Rattle.core_frame.specs.Frame.{channel_of};
ghost use Rattle.history_laws.specs.Contents.{took};
ghost use Rattle.logical_plan.specs.Items.{Cells, Item, of_rows};
ghost use Rattle.tree_laws.specs.Trees.{Tree, gave_of, IsSubtree};
ghost use Rattle.tree_laws.specs.Linked.{whole, IsFlow, IsWhole};
ghost use Rattle.tree_laws.specs.Tasks.{Split, handled};
ghost use Rattle.tree_laws.specs.Runs.{State, the_task, IsStart, IsReached};
ghost use Rattle.tree_laws.specs.Batches.{EachHasRows, AllHaveRows, SendsRows};
ghost use Rattle.content_laws.specs.Bags.{SameBag, sum_below, together};
ghost use Rattle.content_laws.specs.Subsequences.{IsSubsequence};
ghost use Rattle.content_laws.specs.Senders.{Deal, IsSender, AreSenders, SendsOnly, IsOnlySender, SendsInOrder, IsLoneSender};
ghost use Rattle.content_laws.specs.SenderKinds.{whole_split, home_deal, hash_split, hash_deal, is_at};
ghost use Rattle.content_laws.specs.Whole.{past_in, tree_in, AreFull, given_weight, given_to};

/// In each state that entries reach from the start of a run of tasks, its channels have whole contents (`exist`).
///
/// Of these is read what each task took (`flow`); so what its tree gave is a front of what it would give of whole
/// channels, and all of it where it ends (`whole`), and so it is of each tree in it, that is, of what each operator
/// gave (`fronts`).
pub fn full_law()
    ensures exist { (p : Shape) (size limit : ℕ) (start s : State) (entries : List Entry) (deal : ℕ
        → Deal)
        → IsShape p → IsStart p size limit start → IsReached p size limit start entries s
        → (full : ℕ → ℕ → List Item) × AreFull p s deal full }
    ensures flow { (p : Shape) (size limit : ℕ) (start s : State) (entries : List Entry) (deal : ℕ
        → Deal) (full : ℕ → ℕ → List Item)
        → IsShape p → IsStart p size limit start → IsReached p size limit start entries s
        → AreSenders p start.tasks deal
        → AreFull p s deal full → (t : ℕ) → IsFlow (past_in s t) full (tree_in s t) }
    ensures whole { (p : Shape) (size limit : ℕ) (start s : State) (entries : List Entry) (deal : ℕ
        → Deal) (full : ℕ → ℕ → List Item)
        → IsShape p → IsStart p size limit start → IsReached p size limit start entries s
        → AreSenders p start.tasks deal
        → AreFull p s deal full → (t : ℕ) → IsWhole size full (tree_in s t) }
    ensures fronts { (p : Shape) (size limit : ℕ) (start s : State) (entries : List Entry) (deal : ℕ
        → Deal) (full : ℕ → ℕ → List Item)
        → IsShape p → IsStart p size limit start → IsReached p size limit start entries s
        → AreSenders p start.tasks deal
        → AreFull p s deal full → (t : ℕ) (x : Tree) → IsSubtree x (tree_in s t)
        → IsWhole size full x }
{}

/// The channels of a group share what its senders would give: of each weight of items, their whole contents have
/// together what the senders' trees would give of whole channels (`exchanged`), so both are the same bag
/// (`shared`).
///
/// A channel with one sender that sends all there has what that task would give, in order (`single`). Where one
/// task alone sends to a group, in order, each of its channels has some of what that task would give, in its order
/// (`ordered`).
pub fn exchange_law()
    ensures exchanged { (p : Shape) (size limit : ℕ) (start s : State) (entries : List Entry)
        (deal : ℕ
        → Deal) (full : ℕ → ℕ → List Item)
        → IsShape p → IsStart p size limit start → IsReached p size limit start entries s
        → AreSenders p start.tasks deal
        → AreFull p s deal full
        → (w : Item → ℕ) (g : ℕ) → sum_below (width p g) (λ c. sum_by w (full g c))
        ≡ given_weight p s full w g }
    ensures shared { (p : Shape) (size limit : ℕ) (start s : State) (entries : List Entry) (deal : ℕ
        → Deal) (full : ℕ → ℕ → List Item)
        → IsShape p → IsStart p size limit start → IsReached p size limit start entries s
        → AreSenders p start.tasks deal
        → AreFull p s deal full
        → (g : ℕ)
        → SameBag (together (width p g) (full g))
        (together (length p.tasks) (given_to p s full g)) }
    ensures single { (p : Shape) (size limit : ℕ) (start s : State) (entries : List Entry) (deal : ℕ
        → Deal) (full : ℕ → ℕ → List Item)
        → IsShape p → IsStart p size limit start → IsReached p size limit start entries s
        → AreSenders p start.tasks deal
        → AreFull p s deal full
        → (u g c : ℕ) → IsOnlySender p start.tasks deal u g c
        → full g c ≡ whole full (tree_in s u) }
    ensures ordered { (p : Shape) (size limit : ℕ) (start s : State) (entries : List Entry)
        (deal : ℕ
        → Deal) (full : ℕ → ℕ → List Item)
        → IsShape p → IsStart p size limit start → IsReached p size limit start entries s
        → AreSenders p start.tasks deal
        → AreFull p s deal full
        → (u g : ℕ) → IsLoneSender p start.tasks deal u g → (c : ℕ) → c < width p g
        → IsSubsequence (full g c) (whole full (tree_in s u)) }
{}

/// What a test of items passes at channels: what passes it at all senders of the group (`all`), and what passes it at the parts
/// and shares for that channel (`at`). And what a tree gave passes what it would give passes (`gave`).
pub fn test_law()
    ensures all { (p : Shape) (size limit : ℕ) (start s : State) (entries : List Entry) (deal : ℕ
        → Deal) (full : ℕ → ℕ → List Item)
        → IsShape p → IsStart p size limit start → IsReached p size limit start entries s
        → AreSenders p start.tasks deal
        → AreFull p s deal full
        → (test : Item → Bool) (g : ℕ)
        → ((u : ℕ) → is_group (task_at p u).sends g ≡ true
        → AllPass test (whole full (tree_in s u)))
        → (c : ℕ) → c < width p g → AllPass test (full g c) }
    ensures at { (p : Shape) (size limit : ℕ) (start s : State) (entries : List Entry) (deal : ℕ
        → Deal) (full : ℕ → ℕ → List Item)
        → IsShape p → IsStart p size limit start → IsReached p size limit start entries s
        → AreSenders p start.tasks deal
        → AreFull p s deal full
        → (test : Item → Bool) (g c : ℕ) → c < width p g
        → ((u : ℕ) (split : Split) → is_group (task_at p u).sends g ≡ true
        → (the_task start.tasks u).split ≡ Some split
        → SendsOnly test c split (deal u))
        → AllPass test (full g c) }
    ensures gave { (p : Shape) (size limit : ℕ) (start s : State) (entries : List Entry) (deal : ℕ
        → Deal) (full : ℕ → ℕ → List Item)
        → IsShape p → IsStart p size limit start → IsReached p size limit start entries s
        → AreSenders p start.tasks deal
        → AreFull p s deal full
        → (test : Item → Bool) (u : ℕ) → AllPass test (whole full (tree_in s u))
        → AllPass test (of_rows (gave_of (tree_in s u))) }
{}

/// Two kinds of senders owe what a sender has to: those whose batches go whole to one channel each, by their number
/// (`batches`), where what they would still give goes to any one of their targets; and those that send each row to
/// the channel of its number (`rows`), so that a channel gets only rows of its own number (`numbered`). What they
/// send to a channel stands in the order in which it is given (`batches_in_order`, `rows_in_order`). Neither sends
/// an empty part of a batch that has rows (`batches_have_rows`, `rows_have_rows`).
pub fn senders_law()
    ensures batches { (p : Shape) (u g : ℕ) (to : ℕ → ℕ) (home : ℕ)
        → has (task_at p u).targets home ≡ true → home < width p g
        → IsSender p u g (whole_split to) (home_deal home) }
    ensures rows { (p : Shape) (u g n : ℕ) (number : Cells → ℕ) → ((row : Cells) → number row < n)
        → 0 < n → width p g ≡ n
        → ((c : ℕ) → has (task_at p u).targets c ≡ false → n ≤ c)
        → IsSender p u g (hash_split number n) (hash_deal number) }
    ensures numbered { (number : Cells → ℕ) (n c : ℕ)
        → SendsOnly (is_at number c) c (hash_split number n) (hash_deal number) }
    ensures batches_in_order { (to : ℕ → ℕ) (home : ℕ)
        → SendsInOrder (whole_split to) (home_deal home) }
    ensures rows_in_order { (number : Cells → ℕ) (n : ℕ)
        → SendsInOrder (hash_split number n) (hash_deal number) }
    ensures batches_have_rows { (to : ℕ → ℕ) → SendsRows (whole_split to) }
    ensures rows_have_rows { (number : Cells → ℕ) (n : ℕ) → SendsRows (hash_split number n) }
{}

/// Lists that are permutations of one another are the same bag (`permuted`), and a test passes all of a bag, whatever the order
/// (`passes`).
pub fn bag_law()
    ensures permuted { (xs ys : List Item) → IsPermutation xs ys → SameBag xs ys }
    ensures passes { (test : Item → Bool) (xs ys : List Item) → SameBag xs ys → AllPass test xs
        → AllPass test ys }
{}

/// Where no part that tasks sent, or were refused, is empty, no batch is that was taken from a channel (`took`), or
/// that is left in a live one (`left`).
pub fn received_law()
    ensures took { (p : Shape) (size limit : ℕ) (start s : State) (entries : List Entry)
        → IsShape p → IsReached p size limit start entries s
        → ((u : ℕ) → AllHaveRows (handled (past_in s u)))
        → (t g c : ℕ) → receives_at p t g c ≡ true → EachHasRows (took g c (past_in s t)) }
    ensures left { (p : Shape) (size limit : ℕ) (start s : State) (entries : List Entry)
        → IsShape p → IsReached p size limit start entries s
        → ((u : ℕ) → AllHaveRows (handled (past_in s u)))
        → (t g c : ℕ) → receives_at p t g c ≡ true → (channel_of s.run.frame g c).live ≡ true
        → EachHasRows (channel_of s.run.frame g c).batches }
{}
