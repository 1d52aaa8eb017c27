//! A heap that paces itself, and its plans.
use super::*;
use graph_heap::Reply;
use machine::Heap;
use paced::{
    AbovePlan, Cycles, Figures, NoLog, Pacer, Plan, classes_in, flow_fits, least_pages, moves_all,
    planned,
};
use size_classes::Class;
use std::alloc::Global;

/// Returns 300 pages, all of which a cycle may empty, with quanta of this many ticks.
fn moving_all(rt: &impl Abort, collector_ticks: i64) -> Config {
    let settings = Settings {
        pages: 300,
        slots: 8,
        defrag_below: 301,
        defrag_pages: 300,
        collector_ticks,
        ..Settings::DEFAULTS
    };
    let Ok(config) = Config::check_for_library(&settings) else {
        panic!(rt; "the settings are good");
    };
    config
}

fn new_heap(rt: &impl Abort, alloc: Global, config: &Config) -> Heap {
    let Ok(heap) = Heap::new(alloc, config) else {
        panic!(rt; "there is memory");
    };
    heap
}

/// A plan of a configuration, and objects on its heap through some cycles; then one above the words of a cycle.
#[test]
fn a_paced_heap_is_made_and_asked(rt: HostRuntime) {
    let config = moving_all(&rt, 50);
    let Some(plan) = planned(&config, 183200, None) else {
        panic!(rt; "a flow fits");
    };
    assert!(rt; plan.quantum_words == 421 && plan.cycle_words == 63062);
    assert!(rt; moves_all(&config));
    // A word for each quantum adds less than a page to the 100 that are live and three of each class.
    assert!(rt; least_pages(&config, 183200, None) == Some(214));
    let mut heap = new_heap(&rt, rt.alloc(), &config);
    let mut cycles = Cycles::NONE;
    let mut pacer = Pacer::new(&config, plan);
    for n in 0..100u32 {
        let shape = Shape::WordArray(20000);
        assert!(rt;
            pacer
                .pay_for(&mut heap, &mut cycles, &mut NoLog, shape)
                .is_ok()
        );
        let reply = heap.step(0, Command::New { dst: 0, shape });
        assert!(rt; reply == Reply::Made(u64::from(n) + 1));
    }
    let figures = pacer.figures();
    assert!(rt; figures.cycles > 0 && figures.quanta >= figures.most_quanta);
    assert!(rt; cycles.begun.number == figures.cycles);
    let above = pacer.pay_for(&mut heap, &mut cycles, &mut NoLog, Shape::WordArray(70000));
    assert!(rt; above == Err(AbovePlan));
    assert!(rt; pacer.figures() == figures);
}

/// Plans for the smallest and the largest size class alone: of the 114 pages that may be filled in part only 6 are, and
/// the others are left for made objects.
#[test]
fn a_plan_is_made_for_some_classes(rt: HostRuntime) {
    let config = moving_all(&rt, 50);
    let used = [Class::new(37), Class::new(0), Class::new(37)];
    assert!(rt; classes_in(&used) == 2);
    assert!(rt; least_pages(&config, 183200, Some(&used)) == Some(106));
    let Some(plan) = planned(&config, 183200, Some(&used)) else {
        panic!(rt; "a flow fits");
    };
    assert!(rt; plan.quantum_words == 828 && plan.cycle_words == 142601);
    assert!(rt; flow_fits(&config, 183200, &plan, Some(&used)));
    assert!(rt; !flow_fits(&config, 183200, &plan, None));
    let more = [Class::new(9), used[0], used[1]];
    assert!(rt; !flow_fits(&config, 183200, &plan, Some(&more)));
}

/// A program begins a cycle and spends quanta of its own: they aren't in the figures.
#[test]
fn a_program_works_besides(rt: HostRuntime) {
    let config = moving_all(&rt, 10);
    let plan = Plan {
        quantum_words: 10,
        cycle_words: 70000,
    };
    let mut heap = new_heap(&rt, rt.alloc(), &config);
    let mut cycles = Cycles::NONE;
    let mut pacer = Pacer::new(&config, plan);
    assert!(rt; pacer.begin(&mut heap, &mut cycles).is_ok());
    assert!(rt; pacer.begin(&mut heap, &mut cycles).is_err());
    assert!(rt; pacer.quantum(&mut heap, &mut cycles, 300).is_ok());
    assert!(rt; pacer.quantum(&mut heap, &mut cycles, 1000).is_ok());
    assert!(rt; pacer.quantum(&mut heap, &mut cycles, 255).is_err());
    assert!(rt; cycles.begun.number == 1 && cycles.begun.quanta == 2);
    assert!(rt;
        pacer.figures()
            == Figures {
                quanta: 0,
                cycles: 0,
                most_quanta: 0
            }
    );
    assert!(rt; !heap.phase().is_idle());
}
