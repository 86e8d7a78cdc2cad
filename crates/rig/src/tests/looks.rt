// Looks: signs and sameness, against a plain model.
use look::Look;
use look::joint::JointLook;
use look::level::LevelLook;
use look::switch::SwitchLook;

// Mark k of a word, by halving it k times.
fn mark(word: u32, k: u16) -> bool {
    let mut rest = word;
    for _ in 0..k {
        rest /= 2;
    }
    rest % 2 == 1
}

#[test]
fn a_switch_look_shows_its_marks(rt: HostRuntime) {
    for marks in [0, 1, 2, 3, 0x8000_0000, 0xffff_fffe, u32::MAX] {
        let look = SwitchLook { marks };
        for k in 0..70 {
            assert_eq!(rt; look.shows(k), mark(marks, k));
        }
        assert!(rt; !look.shows(65535));
        assert!(rt; look.same_as(&SwitchLook { marks }));
        assert!(rt;
            !look.same_as(&SwitchLook {
                marks: marks ^ 0x1_0000,
            })
        );
    }
}

// The step of 16 that a level lies in, by trying each.
fn step(level: u8) -> u16 {
    let mut top = 0;
    for k in 1..16 {
        if 16 * k <= u16::from(level) {
            top = k;
        }
    }
    top
}

#[test]
fn a_level_look_shows_the_steps_it_reaches(rt: HostRuntime) {
    for level in 0..=255 {
        let look = LevelLook { cue: 7, level };
        for k in 0..40 {
            assert_eq!(rt; look.shows(k), k < 16 && k <= step(level));
        }
    }
}

#[test]
fn levels_are_the_same_within_a_step(rt: HostRuntime) {
    for a in 0..=255 {
        let one = LevelLook { cue: 1, level: a };
        for b in 0..=255 {
            let other = LevelLook { cue: 2, level: b };
            assert_eq!(rt; one.same_as(&other), step(a) == step(b));
        }
    }
}

#[test]
fn a_joint_look_shows_both_in_turn(rt: HostRuntime) {
    let left = SwitchLook { marks: 5 };
    let right = LevelLook { cue: 1, level: 40 };
    let both = JointLook { left, right };
    for k in 0..40 {
        assert_eq!(rt; both.shows(2 * k), left.shows(k));
        assert_eq!(rt; both.shows(2 * k + 1), right.shows(k));
    }
    let nested = JointLook {
        left: both,
        right: left,
    };
    assert!(rt; nested.shows(0) && nested.shows(2) && !nested.shows(4));
    assert!(rt; nested.shows(1) && !nested.shows(3) && nested.shows(5));
    assert!(rt;
        both.same_as(&JointLook {
            left,
            right: LevelLook { cue: 9, level: 47 },
        })
    );
    assert!(rt;
        !both.same_as(&JointLook {
            left,
            right: LevelLook { cue: 1, level: 48 },
        })
    );
    assert!(rt;
        !both.same_as(&JointLook {
            left: SwitchLook { marks: 4 },
            right,
        })
    );
}
